//! What a generic stands for.

/// The sort of a generic: a type, or a number where it is written `const NAME: i64`.
#[derive(Clone, Copy, Debug, PartialEq, Eq)]
pub enum Sort {
    Ty,
    Number,
}
