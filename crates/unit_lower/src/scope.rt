//! What the body of a function may name, and the slots that its locals take.

ghost use Rattle.std.specs.Prelude.{◌≡◌, ◌+◌, ◌<◌, ◌≤◌, length, map, sum, slice_index, Err, IfOk};
ghost use Rattle.unit_input.specs.Widths as widths;
ghost use Rattle.unit_lower.specs.Slots.{first_slot, local_slots};
ghost use Rattle.unit_lower.specs.ScopeView.{signature_view};
ghost use Rattle.unit_lower.specs.declared.stop.Stop.TheVariants.{TooWide};

use crate::stop::Stop;
use std::alloc::Global;
use std::marker::Model;

/// How many words a function takes and gives, as an input writes it.
#[derive(Clone, Copy, Debug, PartialEq, Eq)]
pub(crate) struct Signature {
    pub(crate) params: u16,
    pub(crate) result: u16,
}

/// A local's slots.
#[derive(Clone, Copy, Debug, PartialEq, Eq)]
pub(crate) struct Slots {
    pub(crate) first: u8,
    pub(crate) count: u8,
}

/// What the body of a function may name, where its locals take at most 255 slots.
#[derive(Drop)]
pub(crate) struct Scope<'a> {
    locals: &'a [u16],
    result: u16,
    callees: &'a [Signature],
    // the first slot of each local
    firsts: Vec<u8>,
    // the slots of all locals
    slots: u8,
}

impl<'a> Model for Scope<'a> {
    ghost use Rattle.std.specs.Prelude.{◌≡◌, map, sum};
    ghost use Rattle.unit_input.specs.Widths.{Scope};
    ghost use Rattle.unit_lower.specs.ScopeView.{signature_view, ArePlaced};

    ghost Value = { Scope };

    ghost view = { λ s. record { locals = s.locals.now; «result» = s.result; callees = map signature_view s.callees.now } };

    ghost invariant = { λ s. ArePlaced s.locals.now s.firsts.items × (s.slots ≡ sum s.locals.now) };
}

impl<'a> Scope<'a> {
    /// The scope of a function, or that its locals take too many slots.
    #[tactic(auto, using(crate::proofs::Firsts::one_first, crate::proofs::Firsts::sum_more, crate::proofs::Firsts::sum_front, crate::proofs::Firsts::sum_all))]
    pub(crate) fn new(
        alloc: Global,
        locals: &'a [u16],
        given: u16,
        callees: &'a [Signature],
    ) -> Result<Scope<'a>, Stop>
        ensures scope { IfOk result (λ s. s ≡ record { locals = locals.now; «result» = given; callees = map signature_view callees.now }) }
        ensures wide { result ≡ Err TooWide → 255 < sum locals.now }
    {
        let mut firsts = Vec::with_capacity(alloc, locals.len())?;
        let mut next = 0u8;
        for width in locals {
            firsts.push(next)?;
            next = raised(next, *width)?;
        }
        Ok(Scope {
            locals,
            result: given,
            callees,
            firsts,
            slots: next,
        })
    }

    /// The slots of a local.
    #[tactic(auto, using(crate::proofs::Firsts::narrow_local, crate::proofs::Firsts::narrow_slots))]
    pub(crate) fn local(&self, number: u32) -> Slots
        requires { number < length self.now.locals }
        ensures first { result.first ≡ first_slot self.now number }
        ensures count { result.count ≡ slice_index self.now.locals number }
        ensures fits { result.first + result.count ≤ 255 }
    {
        let place = number as usize;
        Slots {
            first: self.firsts[place],
            count: self.locals[place] as u8,
        }
    }

    /// How many slots all locals take.
    pub(crate) fn slots(&self) -> u8
        ensures { result ≡ local_slots self.now }
    {
        self.slots
    }

    /// How many words a call of this number gives.
    pub(crate) fn given_by(&self, callee: u32) -> u16
        requires { callee < length self.now.callees }
        ensures { result ≡ (widths.callee self.now callee).«result» }
    {
        self.callees[callee as usize].result
    }
}

/// The next fresh slot after so many more, or that there are too many.
pub(crate) fn raised(next: u8, count: u16) -> Result<u8, Stop>
    ensures sum { IfOk result (λ after. after ≡ next + count) }
    ensures small { IfOk result (λ after. after ≤ 255) }
    ensures wide { result ≡ Err TooWide → 255 < next + count }
{
    let sum = u32::from(next) + u32::from(count);
    if sum > 255 {
        return Err(Stop::TooWide);
    }
    Ok(sum as u8)
}
