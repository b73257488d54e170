//! The queue of free bytes, its rule, and the steps that keep it.
ghost use Rattle.std.specs.Prelude.{◌≡◌, ◌≤◌, [], length, take, MatchOption};
ghost use Rattle.counting.specs.Count.{times};
ghost use Rattle.crossbeam_queue.specs.Fifo.{Held};
ghost use Rattle.crossbeam_queue.specs.Passes.{view, IsSamePass, IsPassOf, ruled_capacity};
ghost use Rattle.token_pool.specs.View.{hand_of, IsLive};
ghost use Rattle.token_pool.specs.Rule.{Ruled};
ghost use Rattle.token_pool.specs.Steps.{opened, filled, Filled, Took, Gave, HasRoom, Accounts, pool_side, pass_side, both_sides};
ghost use Rattle.token_pool.specs.declared.view.View.TheVariants.{Spent};

use crate::view::View;
use crossbeam_queue::protocol::{Join, Lesson, Outcome, Protocol, Split};
use crossbeam_queue::{Pass, RuledArrayQueue};
use std::sync::Wait;

/// The free bytes, the one that is free for longest first.
pub type Queue = RuledArrayQueue<u8, View, TokenRule>;

pub struct TokenRule;

impl Protocol<u8, View> for TokenRule {
    ghost holds = { Ruled };

    ghost first = { opened };
}

/// A push of one of the bytes that the pool is made with.
struct Fill;

impl Outcome<u8, View> for Fill {
    ghost then = { Filled };
}

impl Lesson<u8, View> for Fill {
    ghost fact = { HasRoom };
}

/// A pop.
struct TakeOut;

impl Outcome<u8, View> for TakeOut {
    ghost then = { Took };
}

impl Lesson<u8, View> for TakeOut {
    ghost fact = { Accounts };
}

/// A push of a byte that was owed.
struct GiveBack;

impl Outcome<u8, View> for GiveBack {
    ghost then = { Gave };
}

impl Lesson<u8, View> for GiveBack {
    ghost fact = { HasRoom };
}

/// A pass is split off the pool's own.
pub(crate) struct GoOut;

impl Split<View> for GoOut {
    ghost left = { pool_side };

    ghost right = { pass_side };
}

/// A pass is joined into the pool's own.
pub(crate) struct ComeBack;

impl Join<View> for ComeBack {
    ghost both = { both_sides };

    ghost spent = { Spent };
}

/// Pushes the bytes that the pool is made with.
pub(crate) fn put_all<R: Wait>(rt: &R, queue: &Queue, pass: &mut Pass<u8, View>, bytes: &[u8])
    requires queue { IsPassOf queue.now pass.old }
    requires room { length bytes.now ≤ ruled_capacity queue.now }
    requires new { view pass.old ≡ opened }
    ensures queue { IsSamePass pass.old pass.new }
    ensures all { view pass.new ≡ filled bytes.now }
{
    for byte in bytes {
        if queue.push_as::<Fill, R>(rt, pass, *byte).is_err() {
            unreachable!()
        }
    }
}

/// Pops a byte. There is none only if the queue was empty at one moment of the call.
pub(crate) fn take_byte<R: Wait>(rt: &R, queue: &Queue, pass: &mut Pass<u8, View>) -> Option<u8>
    requires queue { IsPassOf queue.now pass.old }
    requires live { IsLive (view pass.old) }
    ensures queue { IsSamePass pass.old pass.new }
    ensures rule { MatchOption result ((view pass.new ≡ view pass.old) × Held 0 (Accounts (view pass.old))) (λ byte. Took (view pass.old) byte (view pass.new)) }
{
    queue.pop_as::<TakeOut, R>(rt, pass)
}

/// Pushes a byte that is owed, for which there is room.
pub(crate) fn give_byte<R: Wait>(rt: &R, queue: &Queue, pass: &mut Pass<u8, View>, byte: u8)
    requires queue { IsPassOf queue.now pass.old }
    requires live { IsLive (view pass.old) }
    requires owed { 1 ≤ times byte (hand_of (view pass.old)).owed }
    requires room { length (hand_of (view pass.old)).bytes ≤ ruled_capacity queue.now }
    ensures queue { IsSamePass pass.old pass.new }
    ensures rule { Gave (view pass.old) byte (view pass.new) }
{
    if queue.push_as::<GiveBack, R>(rt, pass, byte).is_err() {
        unreachable!()
    }
}
