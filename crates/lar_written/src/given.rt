//! One generic as it is given.
use lar_tree::Span;
use type_table::Sort;

/// One generic as it is given: where it stands, whether it is a type or a number, and what it is, where there is no fault in it.
#[derive(Clone, Copy, Debug)]
pub struct Given {
    pub at: Span,
    pub sort: Sort,
    pub of: Option<usize>,
}
