//! A gate stands before each job. It has no effect on any answer; a test may hold jobs back at it, to
//! see that they are out together.
use std::sync::Wait;

/// What a job passes before it begins.
pub trait Gate: Drop + Send + Sync + 'static {
    fn pass<R: Wait>(&self, rt: &R, unit: u32);
}

/// A gate that is open.
#[derive(Clone, Copy, Debug, Drop)]
pub struct FreeGate;

impl Gate for FreeGate {
    fn pass<R: Wait>(&self, _rt: &R, _unit: u32) {}
}
