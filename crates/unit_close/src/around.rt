//! What is at hand while a body is gone through.
use crate::measure::Measure;
use lar_typed::TypedConst;

/// What a body names: the tree's types, structs and constants, and what is so of the instance.
#[derive(Drop)]
pub(crate) struct Around<'a> {
    pub(crate) measure: Measure<'a>,
    pub(crate) consts: &'a [TypedConst],
    /// How many words each argument of the instance has, as widths are written.
    pub(crate) widths: &'a [u16],
    /// The numbers that stand for const generics, by place among the generics; 0 for a generic that stands for a type.
    pub(crate) numbers: &'a [i64],
    /// The types of the function's locals, as numbers of rows.
    pub(crate) locals: &'a [usize],
    /// The numbers of the body's calls, in reading order.
    pub(crate) calls: &'a [u32],
}
