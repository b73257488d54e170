//! Whether a function keeps the rules of the machine.
//!
//! One pass finds a function that keeps them all, with its greatest height. Only a function that does not
//! get through it is looked over for its first fault, in four passes: its instructions, their heights,
//! the targets to which a jump brings another height, and then the rules in the order of their table. That
//! is done at most once for an image, since the first fault ends the validation. The room for both is
//! used again from function to function.

ghost use Rattle.std.specs.Prelude.{◌≡◌, ℕ, ◌+◌, ◌-◌, ◌<◌, ◌≤◌, ◌^◌, length, replicate, false, None, Option, OnOk};
ghost use Rattle.lar_bytes.specs.Answers.{Answers};
ghost use Rattle.object_format.specs.Reading.{code_fault};
ghost use Rattle.object_format.specs.Version.{max_code};
ghost use Rattle.stack_vm.specs.Operation.{operations};
ghost use Rattle.stack_vm.specs.Faults.{checked, judged, Judges};

use crate::crossing::cross;
use crate::faults::first;
use crate::heights::{NONE, measure};
use crate::operation::{Placed, list};
use crate::sweeping::sweep;
use lar_bytes::OrMemory;
use object_format::{BadFile, ImageFn, Version, What};
use std::alloc::{AllocError, Global};

/// Room for what is known of the function at hand, by offset: what the one pass notes; and for the
/// search of a fault the instructions, what jumps bring, the heights, and whether a jump brings
/// another height.
#[derive(Drop)]
pub struct Scratch {
    noted: Vec<u32>,
    listed: Vec<Placed>,
    brought: Vec<u32>,
    found: Vec<u32>,
    crossed: Vec<bool>,
}

impl Scratch {
    pub fn new(alloc: Global) -> Scratch {
        Scratch {
            noted: Vec::new(alloc),
            listed: Vec::new(alloc),
            brought: Vec::new(alloc),
            found: Vec::new(alloc),
            crossed: Vec::new(alloc),
        }
    }
}

/// No height at each offset below a length.
fn refill(numbers: &mut Vec<u32>, len: usize) -> Result<(), AllocError>
    ensures { OnOk result (numbers.new.items ≡ replicate len (2 ^ 32 - 1)) }
{
    numbers.clear();
    numbers.resize(len, NONE)?;
    Ok(())
}

fn unset(crossed: &mut Vec<bool>, len: usize) -> Result<(), AllocError>
    ensures { OnOk result (crossed.new.items ≡ replicate len false) }
{
    crossed.clear();
    crossed.resize(len, false)?;
    Ok(())
}

/// The greatest height of a function, or the first fault of its code, which begins `at` bytes into
/// the file. Nothing is noted at first.
fn judge(
    functions: &[ImageFn],
    function: &ImageFn,
    listed: &[Placed],
    brought: &mut [u32],
    found: &mut [u32],
    crossed: &mut [bool],
    at: u64,
) -> Result<u32, BadFile>
    requires fits { at < 2 ^ 62 }
    requires short { length function.now.code ≤ max_code }
    requires listed { listed.now ≡ operations function.now.code }
    requires brought { brought.old ≡ replicate (length function.now.code) (2 ^ 32 - 1) }
    requires found { found.old ≡ replicate (length function.now.code) (2 ^ 32 - 1) }
    requires crossed { crossed.old ≡ replicate (length function.now.code) false }
    ensures { Judges functions.now at function.now result }
{
    let greatest = measure(functions, listed, brought, found);
    cross(functions, listed, found, crossed);
    match first(functions, function, listed, found, crossed, at) {
        Some(fault) => Err(fault),
        None => Ok(greatest),
    }
}

/// The same of a function of which nothing is listed yet.
fn look_over(
    scratch: &mut Scratch,
    functions: &[ImageFn],
    function: &ImageFn,
    at: u64,
) -> Result<u32, OrMemory<BadFile>>
    requires fits { at < 2 ^ 62 }
    requires short { length function.now.code ≤ max_code }
    requires whole { (count : Option ℕ) × (code_fault count 0 function.now.code ≡ None) }
    ensures { Answers (λ n. n) result (judged functions.now at function.now) }
{
    let code = function.code();
    list(&mut scratch.listed, code)?;
    refill(&mut scratch.brought, code.len())?;
    refill(&mut scratch.found, code.len())?;
    unset(&mut scratch.crossed, code.len())?;
    match judge(
        functions,
        function,
        &scratch.listed,
        &mut scratch.brought,
        &mut scratch.found,
        &mut scratch.crossed,
        at,
    ) {
        Ok(greatest) => Ok(greatest),
        Err(fault) => Err(OrMemory::Refused(fault)),
    }
}

/// The greatest height of a function that begins `at` bytes into the file, or its first fault.
#[tactic(auto, unfolding(crate::specs::Faults::function_fault))]
pub fn check(
    scratch: &mut Scratch,
    functions: &[ImageFn],
    function: &ImageFn,
    version: Version,
    at: u64,
) -> Result<u32, OrMemory<BadFile>>
    requires fits { at < 2 ^ 61 }
    requires whole { (count : Option ℕ) × (code_fault count 0 function.now.code ≡ None) }
    ensures { Answers (λ n. n) result (checked functions.now version at function.now) }
{
    let code = function.code();
    if function.slots() < function.params() {
        return Err(OrMemory::Refused(BadFile {
            at: at + 2,
            what: What::Slots,
        }));
    }
    if code.is_empty() {
        return Err(OrMemory::Refused(BadFile {
            at: at + version.code_offset(),
            what: What::End,
        }));
    }
    refill(&mut scratch.noted, code.len())?;
    match sweep(functions, function, code, &mut scratch.noted) {
        Some(greatest) => Ok(greatest),
        None => look_over(scratch, functions, function, at + version.code_offset()),
    }
}
