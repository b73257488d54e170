//! The offsets to which a jump brings another height than their own.

ghost use Rattle.std.specs.Prelude.{◌≡◌, ℕ, ◌*◌, ◌<◌, ◌≤◌, ◌||◌, length, slice_index_or, true, false, Some, List};
ghost use Rattle.std.specs.Prelude.{slice_get};
ghost use Rattle.stack_vm.specs.declared.operation.Placed.{Placed};
ghost use Rattle.stack_vm.specs.Heights.{Shows, jumps_to, first_at};
ghost use Rattle.stack_vm.specs.Faults.{brings_other, is_crossed, height_at};

use crate::heights::{NONE, leaves, target};
use crate::operation::{Operation, Placed};
use object_format::ImageFn;

/// The height that stands at an offset, or 0.
pub fn height_of(found: &[u32], offset: u32) -> u32
    requires { offset < length found.now }
    ensures { (pairs : List (ℕ × ℕ)) (limit : ℕ) → Shows pairs found.now limit → limit < 4_294_967_295
        → (result ≡ height_at pairs offset) × (result ≤ limit) }
{
    let height = found[offset as usize];
    if height == NONE { 0 } else { height }
}

/// Notes where an instruction, which leaves `left`, brings another height.
fn note(crossed: &mut [bool], found: &[u32], operation: Operation, left: u32)
    requires { length crossed.old ≡ length found.now }
    ensures { (pairs : List (ℕ × ℕ)) (limit : ℕ) → Shows pairs found.now limit → limit < 4_294_967_295 → (t : ℕ) → t < length crossed.old
        → slice_index_or crossed.new t false ≡ (slice_index_or crossed.old t false || brings_other (jumps_to operation) left (first_at pairs t) t) }
{
    if let Some(to) = target(operation) {
        if (to as usize) < crossed.len() {
            let own = found[to as usize];
            if own != NONE && left != own {
                crossed[to as usize] = true;
            }
        }
    }
}

/// Notes for each offset whether an instruction brings another height to it. None is noted at first.
pub fn cross(functions: &[ImageFn], listed: &[Placed], found: &[u32], crossed: &mut [bool])
    requires long { length crossed.old ≡ length found.now }
    requires places { (k : ℕ) (p : Placed) → slice_get listed.now k ≡ Some p → p.offset < length found.now }
    requires shown { (pairs : List (ℕ × ℕ)) × Shows pairs found.now (255 * 16_777_216) }
    requires none { (t : ℕ) → t < length crossed.old → slice_index_or crossed.old t false ≡ false }
    ensures { (pairs : List (ℕ × ℕ)) → Shows pairs found.now (255 * 16_777_216) → (t : ℕ) → t < length crossed.old
        → slice_index_or crossed.new t false ≡ is_crossed functions.now pairs t listed.now }
{
    for placed in listed {
        let height = height_of(found, placed.offset);
        let left = leaves(functions, placed.operation, height);
        note(crossed, found, placed.operation, left);
    }
}
