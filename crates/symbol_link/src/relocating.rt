//! Code in which calls have the numbers that they have in the image.
//!
//! The numbers of an object's calls count its own functions and, behind them, its externals. Only they change: each other byte of
//! code is copied, and no code changes its length.

ghost use Rattle.std.specs.Prelude.{◌≡◌, ℕ, ◌+◌, ◌<◌, ◌≤◌, ◌^◌, ◌++◌, length, slice_index, IfOk, OnOk};
ghost use Rattle.object_format.specs.Code.{bytes_of, CallIsBelow, IsLinkedCode};
ghost use Rattle.object_format.specs.Opcode.{row};
ghost use Rattle.object_format.specs.Splitting.{with_operand};
ghost use Rattle.symbol_link.specs.Relocation.{instruction_relocated, relocated};

use lar_bytes::Bytes;
use object_format::{Opcode, split_first};
use std::alloc::{AllocError, Global};

/// What the calls of an object lead to. All places are below 2^32.
#[derive(Drop)]
pub(crate) struct Callees<'a> {
    /// The place of the object's first function.
    pub start: usize,
    /// How many functions it has.
    pub own: usize,
    /// The places of its externals.
    pub externals: &'a [usize],
    ghost own_fit: { start + own ≤ 2 ^ 32 },
    ghost externals_fit: { (k : ℕ) → slice_index externals.now k < 2 ^ 32 },
}

impl Callees<'_> {
    ghost use Rattle.symbol_link.specs.Callees.{place_by, reach};

    /// The place of what a call with this number calls.
    fn place(&self, number: u32) -> u32
        requires { number < reach self.now }
        ensures { result ≡ place_by self.now number }
    {
        let number = number as usize;
        if number < self.own {
            (self.start + number) as u32
        } else {
            self.externals[number - self.own] as u32
        }
    }

    /// Puts an instruction at the end of `out`: a call with the place of what it calls, any other as it is.
    fn put(&self, out: &mut Bytes, opcode: Opcode, operand: &[u8]) -> Result<(), AllocError>
        requires whole { length operand.now ≡ (row opcode).operand }
        requires below { CallIsBelow (reach self.now) (with_operand opcode operand.now) }
        ensures { OnOk result (out.new ≡ out.old ++ bytes_of (instruction_relocated (place_by self.now) (with_operand opcode operand.now))) }
    {
        out.push(opcode.number())?;
        match opcode {
            Opcode::Call => {
                let number = u32::from_be_bytes([operand[0], operand[1], operand[2], operand[3]]);
                out.append(&self.place(number).to_be_bytes())
            }
            _ => out.append(operand),
        }
    }

    /// The code of a function of the object, with the place of what is called as each call's number.
    pub fn relocated(&self, alloc: Global, code: &[u8]) -> Result<Bytes, AllocError>
        requires { IsLinkedCode (reach self.now) code.now }
        ensures { IfOk result (λ copy. copy ≡ relocated (place_by self.now) code.now) }
    {
        let mut out = Bytes::from_vec(Vec::with_capacity(alloc, code.len())?);
        let mut left = code;
        while let Some((opcode, operand, behind)) = split_first(left) {
            self.put(&mut out, opcode, operand)?;
            left = behind;
        }
        Ok(out)
    }
}
