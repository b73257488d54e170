//! Instances, items and units.
use lar_bytes::Text;

/// A function with arguments for its generics.
#[derive(Clone, Copy, Debug, PartialEq, Eq)]
pub struct Instance {
    /// The function, by its place among all functions.
    pub function: usize,
    /// The list of its arguments, as the number of a row; the empty list for a function without generics.
    pub arguments: usize,
}

/// An instance that is compiled.
#[derive(Debug, Drop)]
pub struct MonoItem {
    pub instance: Instance,
    /// The names of the modules that its function stands in, joined with `::`.
    pub place: Text,
    /// Whether its function has generics.
    pub generic: bool,
    /// Whether its function has `#[inline]`.
    pub inlined: bool,
    /// Whether it is a root: `main::main`, or a function without generics that has `#[export]`.
    pub root: bool,
    /// How large it is: 1 and the statements and expressions of its function's body.
    pub size: u32,
}

/// The items that the roots reach, in the order in which they are found, and the targets of their calls.
#[derive(Debug, Drop)]
pub struct MonoGraph {
    pub items: Vec<MonoItem>,
    /// Of each item the places of its calls' targets among the items, in reading order, with repeats.
    pub callees: Vec<Vec<usize>>,
}

/// A codegen unit.
#[derive(Debug, Drop)]
pub struct UnitPlan {
    pub name: Text,
    /// The sizes of the items that have their home in it, added up.
    pub size: u64,
    /// The places of these items, in byte order of symbols.
    pub home: Vec<usize>,
    /// The places of the items that are copied into it, in byte order of symbols.
    pub copies: Vec<usize>,
}
