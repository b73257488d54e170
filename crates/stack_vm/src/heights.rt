//! The height before each instruction of a function, by its offset.

ghost use Rattle.std.specs.Prelude.{◌≡◌, ℕ, ◌+◌, ◌*◌, ◌<◌, ◌≤◌, ◌^◌, [], ◌∷◌, ◌++◌, length, max, Some, None, Option, List, unwrap_or};
ghost use Rattle.std.specs.Prelude.{slice_get};
ghost use Rattle.stack_vm.specs.declared.operation.Placed.{Placed};
ghost use Rattle.stack_vm.specs.Heights.{taken, pushed, left_by, jumps_to, handed_on, brings, as_number, Shows, heights, at_start, greatest};

use crate::operation::{Operation, Placed};
use object_format::ImageFn;

/// No height, in a list of heights by offset.
pub const NONE: u32 = u32::MAX;

/// The offset to which an instruction may jump.
pub fn target(operation: Operation) -> Option<u32>
    ensures { result ≡ jumps_to operation }
{
    match operation {
        Operation::Jump(to) => Some(to),
        Operation::JumpZero(to) => Some(to),
        _ => None,
    }
}

/// The height that the next instruction has from this one, which leaves `left`.
fn handed(operation: Operation, left: u32) -> Option<u32>
    ensures on { result ≡ handed_on operation left }
    ensures same { (n : ℕ) → result ≡ Some n → n ≡ left }
{
    match operation {
        Operation::Jump(_) => None,
        Operation::Return => None,
        Operation::Trap => None,
        _ => Some(left),
    }
}

/// How many words an instruction takes, and how many it pushes then.
pub fn effect(functions: &[ImageFn], operation: Operation) -> (u8, u8)
    ensures takes { result.0 ≡ taken functions.now operation }
    ensures pushes { result.1 ≡ pushed functions.now operation }
{
    match operation {
        Operation::Push8(_) => (0, 1),
        Operation::Push64(_) => (0, 1),
        Operation::Load(_) => (0, 1),
        Operation::Store(_) => (1, 0),
        Operation::Pop => (1, 0),
        Operation::Dup => (1, 2),
        Operation::Nop => (0, 0),
        Operation::Neg => (1, 1),
        Operation::Not => (1, 1),
        Operation::Jump(_) => (0, 0),
        Operation::JumpZero(_) => (1, 0),
        Operation::Call(number) => match functions.get(number as usize) {
            Some(function) => (function.params(), function.result()),
            None => (0, 0),
        },
        Operation::Return => (0, 0),
        Operation::Print => (1, 0),
        Operation::Trap => (0, 0),
        Operation::Compute(_) => (2, 1),
    }
}

/// The height that an instruction leaves.
pub fn leaves(functions: &[ImageFn], operation: Operation, height: u32) -> u32
    requires { height < 4_294_000_000 }
    ensures left { result ≡ left_by functions.now operation height }
    ensures small { result ≤ height + 255 }
{
    let (takes, pushes) = effect(functions, operation);
    height.saturating_sub(u32::from(takes)) + u32::from(pushes)
}

/// The height here, from what was handed on and what the first jump brought.
pub fn here(handed: Option<u32>, brought: u32) -> u32
    ensures some { (n : ℕ) → handed ≡ Some n → result ≡ n }
    ensures none { (o : Option ℕ) → handed ≡ None → brought ≡ as_number o → ((n : ℕ) → o ≡ Some n → n < 4_294_967_295) → result ≡ unwrap_or o 0 }
{
    match handed {
        Some(height) => height,
        None => if brought == NONE { 0 } else { brought },
    }
}

/// Notes a height at an offset, where none stands there yet.
fn note(numbers: &mut [u32], to: u32, height: u32)
    ensures { (pairs : List (ℕ × ℕ)) (limit : ℕ) → Shows pairs numbers.old limit → height ≤ limit → limit < 4_294_967_295
        → Shows (pairs ++ (to, height) ∷ []) numbers.new limit }
{
    if (to as usize) < numbers.len() && numbers[to as usize] == NONE {
        numbers[to as usize] = height;
    }
}

/// Notes what an instruction brings to the offset to which it may jump.
fn bring(brought: &mut [u32], operation: Operation, left: u32)
    ensures { (jumps : List (ℕ × ℕ)) (limit : ℕ) → Shows jumps brought.old limit → left ≤ limit → limit < 4_294_967_295
        → Shows (jumps ++ brings (jumps_to operation) left) brought.new limit }
{
    if let Some(to) = target(operation) {
        note(brought, to, left);
    }
}

pub fn larger(a: u32, b: u32) -> u32
    ensures { result ≡ max a b }
{
    if a < b { b } else { a }
}

/// The height at each instruction's offset goes into `found`, and the greatest one is the answer.
/// `brought` keeps what jumps bring. Both show no height at first.
pub fn measure(
    functions: &[ImageFn],
    listed: &[Placed],
    brought: &mut [u32],
    found: &mut [u32],
) -> u32
    requires few { length listed.now ≤ 16_777_216 }
    requires places { (k : ℕ) (p : Placed) → slice_get listed.now k ≡ Some p → p.offset < length brought.old }
    requires brought { Shows [] brought.old 0 }
    requires found { Shows [] found.old 0 }
    ensures found { Shows (heights functions.now at_start listed.now) found.new (255 * 16_777_216) }
    ensures greatest { result ≡ greatest (heights functions.now at_start listed.now) }
{
    let mut before = Some(0);
    let mut most = 0;
    for placed in listed {
        let height = here(before, brought[placed.offset as usize]);
        note(found, placed.offset, height);
        most = larger(most, height);
        let left = leaves(functions, placed.operation, height);
        bring(brought, placed.operation, left);
        before = handed(placed.operation, left);
    }
    most
}
