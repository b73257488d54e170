//! One pass over a function's code that finds it without fault, or leaves that open.
//!
//! The pass keeps one list by offset. Behind it stand the heights of the instructions, ahead of it what
//! the jumps so far bring, and nowhere else a number. What was noted is never changed: a jump has to
//! agree with what stands at its target, and an instruction with what was brought to it. A jump into
//! the middle of an instruction shows when the pass steps over that one. Which fault is the first is
//! not asked here: only a function that does not get through is looked over for it.

ghost use Rattle.std.specs.Prelude.{◌≡◌, ℕ, ◌+◌, ◌-◌, ◌<◌, ◌≤◌, ◌^◌, length, slice_index, replicate, Some, None, Ok, Option, IfSome, IsTrue};
ghost use Rattle.object_format.specs.Reading.{code_fault};
ghost use Rattle.object_format.specs.Version.{max_code};
ghost use Rattle.stack_vm.specs.Faults.{Judges};
ghost use Rattle.stack_vm.specs.Sweep.{Arrives, Leads, Agrees};

use crate::heights::{NONE, here, larger};
use crate::operation::{Operation, read};
use object_format::ImageFn;

/// Where an instruction leads from its height.
#[derive(Clone, Copy, Debug)]
pub struct Way {
    /// The height that it leaves.
    pub left: u32,
    /// The height that the next instruction has from it.
    pub handed: Option<u32>,
    /// The offset to which it may jump.
    pub target: Option<u32>,
    /// How many bytes of code it is.
    pub size: usize,
}

/// On to the next instruction, where there are words enough.
#[inline(always)]
fn on(height: u32, takes: u8, pushes: u8, size: usize) -> Option<Way>
    requires { height < 4_294_000_000 }
    ensures { IfSome result (λ way. (takes ≤ height) × (way ≡ record { left = (height - takes) + pushes; handed = Some ((height - takes) + pushes); target = None; size = size })) }
{
    let left = height.checked_sub(u32::from(takes))? + u32::from(pushes);
    Some(Way {
        left,
        handed: Some(left),
        target: None,
        size,
    })
}

/// On to nothing.
#[inline(always)]
fn end(height: u32) -> Way
    ensures { result ≡ record { left = height; handed = None; target = None; size = 1 } }
{
    Way {
        left: height,
        handed: None,
        target: None,
        size: 1,
    }
}

/// The way from an instruction that finds its words and its slot, and at a return the result's height.
#[inline(always)]
fn follow(
    functions: &[ImageFn],
    function: &ImageFn,
    operation: Operation,
    height: u32,
) -> Option<Way>
    requires { height < 4_294_000_000 }
    ensures { IfSome result (λ way. Leads functions.now function.now operation height way) }
{
    match operation {
        Operation::Push8(_) => on(height, 0, 1, 2),
        Operation::Push64(_) => on(height, 0, 1, 9),
        Operation::Load(slot) if slot < function.slots() => on(height, 0, 1, 2),
        Operation::Store(slot) if slot < function.slots() => on(height, 1, 0, 2),
        Operation::Load(_) | Operation::Store(_) => None,
        Operation::Pop | Operation::Print => on(height, 1, 0, 1),
        Operation::Dup => on(height, 1, 2, 1),
        Operation::Nop => on(height, 0, 0, 1),
        Operation::Neg | Operation::Not => on(height, 1, 1, 1),
        Operation::Jump(to) => Some(Way {
            handed: None,
            target: Some(to),
            left: height,
            size: 5,
        }),
        Operation::JumpZero(to) => Some(Way {
            target: Some(to),
            ..on(height, 1, 0, 5)?
        }),
        Operation::Call(number) => {
            let callee = functions.get(number as usize)?;
            on(height, callee.params(), callee.result(), 5)
        }
        Operation::Return if height == u32::from(function.result()) => Some(end(height)),
        Operation::Return => None,
        Operation::Trap => Some(end(height)),
        Operation::Compute(_) => on(height, 2, 1, 1),
    }
}

/// Whether an instruction agrees with what was brought to it, and its height then.
#[inline(always)]
fn arrive(noted: &mut [u32], offset: usize, handed: Option<u32>) -> Option<u32>
    requires { offset < length noted.old }
    ensures { IfSome result (λ height. Arrives handed offset noted.old height noted.new) }
{
    let brought = noted[offset];
    let height = here(handed, brought);
    if brought != NONE && brought != height {
        return None;
    }
    noted[offset] = height;
    Some(height)
}

/// Whether what a jump leaves agrees with what is noted at its target. It is noted where nothing is yet.
#[inline(always)]
#[tactic(auto, using(crate::proofs::Swept::noted_ahead, crate::proofs::Swept::noted_there))]
fn agree(noted: &mut [u32], offset: usize, to: usize, left: u32) -> bool
    ensures { IsTrue result → Agrees offset (Some to) left noted.old noted.new }
{
    if to >= noted.len() {
        return false;
    }
    if noted[to] == left {
        return true;
    }
    if to <= offset || noted[to] != NONE {
        return false;
    }
    noted[to] = left;
    true
}

/// The same of any instruction.
#[inline(always)]
#[tactic(auto, using(crate::proofs::Swept::noted_none))]
fn bring(noted: &mut [u32], offset: usize, target: Option<u32>, left: u32) -> bool
    ensures { IsTrue result → Agrees offset target left noted.old noted.new }
{
    match target {
        Some(to) => agree(noted, offset, to as usize, left),
        None => true,
    }
}

/// Whether nothing is noted of a part.
#[inline(always)]
#[tactic(auto, using(crate::proofs::Swept::free_more))]
fn is_free(noted: &[u32], from: usize, to: usize) -> bool
    requires { (from ≤ to) × (to ≤ length noted.now) }
    ensures { IsTrue result → (t : ℕ) → from ≤ t → t < to → slice_index noted.now t ≡ 4_294_967_295 }
{
    for at in from..to {
        if noted[at] != NONE {
            return false;
        }
    }
    true
}

/// The greatest height of a function that gets through. Nothing is noted at first, for each byte of its code.
pub fn sweep(
    functions: &[ImageFn],
    function: &ImageFn,
    code: &[u8],
    noted: &mut [u32],
) -> Option<u32>
    requires code { code.now ≡ function.now.code }
    requires short { length function.now.code ≤ max_code }
    requires whole { (count : Option ℕ) × (code_fault count 0 function.now.code ≡ None) }
    requires noted { noted.old ≡ replicate (length function.now.code) (2 ^ 32 - 1) }
    ensures { IfSome result (λ most. (at : ℕ) → Judges functions.now at function.now (Ok most)) }
{
    let mut offset = 0;
    let mut handed = Some(0);
    let mut most = 0;
    while offset < code.len() {
        let height = arrive(noted, offset, handed)?;
        let way = follow(functions, function, read(code, offset), height)?;
        if !bring(noted, offset, way.target, way.left) {
            return None;
        }
        let end = offset + way.size;
        if !is_free(noted, offset + 1, end) {
            return None;
        }
        most = larger(most, height);
        handed = way.handed;
        offset = end;
    }
    match handed {
        None => Some(most),
        Some(_) => None,
    }
}
