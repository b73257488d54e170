//! An image that was validated, with the room that its run takes.

ghost use Rattle.std.specs.Prelude.{◌≡◌, ◌⊎◌, Some, true, false, OnOk, OnErr};
ghost use Rattle.lar_bytes.specs.Answers.{Answers};
ghost use Rattle.object_format.specs.Reading.{unless};
ghost use Rattle.object_format.specs.Version.{version_numbered};
ghost use Rattle.stack_vm.specs.Faults.{image_fault};
ghost use Rattle.stack_vm.specs.Acts.{Ran, runs_of};
ghost use Rattle.stack_vm.specs.Running.{RunLeaves};

use crate::end::End;
use crate::machine::{Frame, MOST_FRAMES, ROOM, TEXT_ROOM};
use crate::running::run_from;
use crate::validating::{entry_fault, greatest_heights};
use lar_bytes::OrMemory;
use object_format::{BadFile, Image, Version};
use sinks::Sink;
use std::alloc::{AllocError, Global};
use std::marker::Model;

/// An image that keeps every rule of the machine, so that its run never meets a missing word, a slot
/// that is not there or a jump out of the code. It has the room for its run once that is reserved.
#[derive(Drop)]
pub struct Valid {
    image: Image,
    greatest: Vec<u32>,
    words: Vec<i64>,
    frames: Vec<Frame>,
    text: Vec<u8>,
    reserved: bool,
}

impl Model for Valid {
    ghost use Rattle.std.specs.Prelude.{◌≡◌, ◌≤◌, length, true, vec_capacity};
    ghost use Rattle.stack_vm.specs.Valid.{Validated, IsRunnable};

    ghost Value = { Validated };

    ghost view = { λ v. record { image = v.image; reserved = v.reserved } };

    ghost invariant = { λ v. IsRunnable v.image v.greatest.items × (v.reserved ≡ true → (length v.words.items ≡ 3_598_576) × (10_000 ≤ vec_capacity v.frames) × (65_536 ≤ vec_capacity v.text)) };
}

/// The image with the greatest height of each of its functions, or its first fault: that of the
/// entry, else the first one in the order of its functions, then by offset, then by the order of the
/// rules. `at` counts from the first byte of the image's spelling in this version, which is 1 or 2.
pub fn validate(alloc: Global, image: Image, version: u16) -> Result<Valid, OrMemory<BadFile>>
    requires { (version ≡ 1) ⊎ (version ≡ 2) }
    ensures { Answers (λ valid. valid) result (unless (image_fault (version_numbered version) image) (record { image = image; reserved = false })) }
{
    let version = Version::numbered(version);
    if let Some(fault) = entry_fault(&image) {
        return Err(OrMemory::Refused(fault));
    }
    let greatest = greatest_heights(alloc, &image, version)?;
    Ok(Valid {
        image,
        greatest,
        words: Vec::new(alloc),
        frames: Vec::new(alloc),
        text: Vec::new(alloc),
        reserved: false,
    })
}

impl Valid {
    /// Whether the frames and the stack are taken.
    pub fn is_reserved(&self) -> bool
        ensures { result ≡ self.now.reserved }
    {
        self.reserved
    }

    /// Takes the frames, the stack and the buffer of the text.
    pub fn reserve(&mut self, alloc: Global) -> Result<(), AllocError>
        ensures done { OnOk result (self.new ≡ record self.old { reserved = true }) }
        ensures err { OnErr result (self.new ≡ self.old) }
    {
        if self.reserved {
            return Ok(());
        }
        let words = vec![in alloc; 0i64; ROOM]?;
        let frames = Vec::with_capacity(alloc, MOST_FRAMES)?;
        let text = Vec::with_capacity(alloc, TEXT_ROOM)?;
        self.words = words;
        self.frames = frames;
        self.text = text;
        self.reserved = true;
        Ok(())
    }
}

/// Runs a valid image from its entry for at most so many steps. The sink gains exactly the text that
/// the steps print. Where a put fails or finds no memory, the run ends by that one put, and the sink
/// has a prefix of the text. The run itself takes no memory.
pub fn run<S: Sink>(alloc: Global, valid: &mut Valid, steps: u64, sink: &mut S) -> End
    requires { valid.old.reserved ≡ true }
    ensures leaves { RunLeaves (runs_of valid.old.image steps) (S.told sink.old) (S.told sink.new) result }
    // The machine never lacks a word, a slot or an instruction: its definition is never stuck.
    ensures defined { (ran : Ran) × (runs_of valid.old.image steps ≡ Some ran) }
    ensures same { valid.new ≡ valid.old }
{
    let entry = valid.image.entry();
    run_from(
        alloc,
        valid.image.functions(),
        valid.greatest.as_slice(),
        entry,
        valid.words.as_mut_slice(),
        &mut valid.frames,
        &mut valid.text,
        steps,
        sink,
    )
}
