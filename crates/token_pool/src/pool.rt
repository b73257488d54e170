//! What every pool of tokens promises.
ghost use Rattle.std.specs.Prelude.{◌≤◌};
ghost use Rattle.token_pool.specs.Pool.{PoolState, TakenBy, GivenBy};

use std::sync::Wait;

/// The answer to a take.
#[derive(Clone, Copy, PartialEq, Eq, Debug, Drop)]
pub enum Take {
    /// This byte is owed from now on.
    Byte(u8),
    /// No byte was free.
    Empty,
    /// The pool failed, and nothing has changed but its count of faults.
    Failed,
}

/// The answer to a give.
#[derive(Clone, Copy, PartialEq, Eq, Debug, Drop)]
pub enum Given {
    /// The byte is no longer owed.
    Done,
    /// The pool failed, and the byte is owed still.
    Failed,
}

/// A source of job tokens. It is asked without waiting for a token to come free.
pub trait TokenPool {
    ghost told: { Self → PoolState };

    fn try_take<R: Wait>(&mut self, rt: &R) -> Take
        ensures { TakenBy (told self.old) result (told self.new) };

    /// Gives back a byte that was taken through this object.
    fn give<R: Wait>(&mut self, rt: &R, byte: u8) -> Given
        requires { 1 ≤ (told self.old).owed byte }
        ensures { GivenBy (told self.old) byte result (told self.new) };
}
