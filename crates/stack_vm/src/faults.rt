//! The first fault of a function's code.

ghost use Rattle.std.specs.Prelude.{◌≡◌, ℕ, ◌+◌, ◌*◌, ◌<◌, ◌≤◌, ◌^◌, length, slice_get, slice_index_or, true, false, Some, None, List};
ghost use Rattle.stack_vm.specs.Heights.{jumps_to, Shows};
ghost use Rattle.stack_vm.specs.Faults.{word_at, code_faults, misses, lacks_slot, is_return, may_end, is_crossed, IsWithin};
ghost use Rattle.stack_vm.specs.declared.operation.Placed.{Placed};

use crate::crossing::height_of;
use crate::heights::{NONE, effect, target};
use crate::operation::{Operation, Placed};
use object_format::{BadFile, ImageFn, What};

/// Whether a jump leads to no instruction.
fn is_lost(found: &[u32], operation: Operation) -> bool
    requires { length found.now ≤ 16_777_216 }
    ensures { (pairs : List (ℕ × ℕ)) → Shows pairs found.now (255 * 16_777_216) → IsWithin pairs (length found.now)
        → result ≡ misses pairs (jumps_to operation) }
{
    match target(operation) {
        Some(to) => to as usize >= found.len() || found[to as usize] == NONE,
        None => false,
    }
}

fn has_no_slot(operation: Operation, slots: u8) -> bool
    ensures { result ≡ lacks_slot operation slots }
{
    match operation {
        Operation::Load(slot) => slot >= slots,
        Operation::Store(slot) => slot >= slots,
        _ => false,
    }
}

fn returns(operation: Operation) -> bool
    ensures { result ≡ is_return operation }
{
    match operation {
        Operation::Return => true,
        _ => false,
    }
}

fn ends(operation: Operation) -> bool
    ensures { result ≡ may_end operation }
{
    match operation {
        Operation::Jump(_) => true,
        Operation::Return => true,
        Operation::Trap => true,
        _ => false,
    }
}

/// The first word of the table that an instruction breaks.
fn word(
    functions: &[ImageFn],
    function: &ImageFn,
    operation: Operation,
    height: u32,
    lost: bool,
    crossed: bool,
    is_last: bool,
) -> Option<What>
    ensures { (pairs : List (ℕ × ℕ)) → lost ≡ misses pairs (jumps_to operation)
        → result ≡ word_at functions.now pairs function.now operation height crossed is_last }
{
    let (takes, _) = effect(functions, operation);
    if lost {
        Some(What::Jump)
    } else if has_no_slot(operation, function.slots()) {
        Some(What::Slot)
    } else if height < u32::from(takes)
        || crossed
        || returns(operation) && height != u32::from(function.result())
    {
        Some(What::Height)
    } else if is_last && !ends(operation) {
        Some(What::End)
    } else {
        None
    }
}

/// The first fault of a function's instructions. Its code begins `at` bytes into the file.
pub fn first(
    functions: &[ImageFn],
    function: &ImageFn,
    listed: &[Placed],
    found: &[u32],
    crossed: &[bool],
    at: u64,
) -> Option<BadFile>
    requires small { length found.now ≤ 16_777_216 }
    requires fits { at < 2 ^ 62 }
    requires places { (k : ℕ) (p : Placed) → slice_get listed.now k ≡ Some p → p.offset < length found.now }
    requires long { length crossed.now ≡ length found.now }
    ensures { (pairs : List (ℕ × ℕ)) → Shows pairs found.now (255 * 16_777_216) → IsWithin pairs (length found.now)
        → ((t : ℕ) → t < length crossed.now → slice_index_or crossed.now t false ≡ is_crossed functions.now pairs t listed.now)
        → result ≡ code_faults functions.now pairs function.now listed.now at listed.now }
{
    for (index, placed) in listed.iter().enumerate() {
        let what = word(
            functions,
            function,
            placed.operation,
            height_of(found, placed.offset),
            is_lost(found, placed.operation),
            crossed[placed.offset as usize],
            index + 1 == listed.len(),
        );
        if let Some(what) = what {
            return Some(BadFile {
                at: at + u64::from(placed.offset),
                what,
            });
        }
    }
    None
}
