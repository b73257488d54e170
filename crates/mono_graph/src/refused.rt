//! A call that is refused.
use lar_source::{Code, Span};

/// Why a program has no graph: the first call that is refused.
#[derive(Clone, Copy, Debug, PartialEq, Eq, Drop)]
pub struct RefusedCall {
    /// `ArgumentTooLarge` or `TooManyInstances`.
    pub code: Code,
    /// Where the callee's path stands.
    pub at: Span,
}
