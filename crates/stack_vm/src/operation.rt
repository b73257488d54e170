//! What an instruction does, read from the bytes of code.

ghost use Rattle.std.specs.Prelude.{◌≡◌, ◌+◌, ◌≤◌, ◌<◌, length, take, None, Option, ℕ, OnOk};
ghost use Rattle.std.specs.Int.{w32, w64, from_be_bytes, cast_signed};
ghost use Rattle.object_format.specs.Opcode.{row};
ghost use Rattle.stack_vm.specs.Operation.{read_as, size, IsThere, operations};
ghost use Rattle.object_format.specs.Reading.{code_fault};
ghost use Rattle.object_format.specs.Version.{max_code};
ghost use Rattle.stack_vm.specs.declared.operation.Operation.{Operation};

use object_format::{Opcode, Operator};
use std::alloc::AllocError;

/// What an instruction does, with its operand. A jump has an offset in its function's code.
#[derive(Clone, Copy, Debug, PartialEq, Eq)]
pub enum Operation {
    Push8(i8),
    Push64(i64),
    Load(u8),
    Store(u8),
    Pop,
    Compute(Operator),
    Neg,
    Not,
    Jump(u32),
    JumpZero(u32),
    Call(u32),
    Return,
    Print,
    Trap,
    Dup,
    Nop,
}

/// An instruction, and how many bytes of its function's code stand before it.
#[derive(Clone, Copy, Debug, PartialEq, Eq)]
pub struct Placed {
    pub offset: u32,
    pub operation: Operation,
}

#[inline(always)]
fn number_of(bytes: &[u8]) -> u32
    requires { 4 ≤ length bytes.now }
    ensures { result ≡ from_be_bytes w32 (take 4 bytes.now) }
{
    u32::from_be_bytes([bytes[0], bytes[1], bytes[2], bytes[3]])
}

#[inline(always)]
fn word_of(bytes: &[u8]) -> i64
    requires { 8 ≤ length bytes.now }
    ensures { result ≡ cast_signed w64 (from_be_bytes w64 (take 8 bytes.now)) }
{
    i64::from_be_bytes([
        bytes[0], bytes[1], bytes[2], bytes[3], bytes[4], bytes[5], bytes[6], bytes[7],
    ])
}

/// What an instruction with this opcode and these bytes behind it does.
#[inline(always)]
#[tactic(auto, using(crate::proofs::Operands::first_byte))]
fn with_operand(opcode: Opcode, bytes: &[u8]) -> Operation
    requires { (row opcode).operand ≤ length bytes.now }
    ensures { result ≡ read_as opcode (take (row opcode).operand bytes.now) }
{
    match opcode {
        Opcode::Push8 => Operation::Push8(i8::from_be_bytes([bytes[0]])),
        Opcode::Push64 => Operation::Push64(word_of(bytes)),
        Opcode::Load => Operation::Load(bytes[0]),
        Opcode::Store => Operation::Store(bytes[0]),
        Opcode::Pop => Operation::Pop,
        Opcode::Compute(operator) => Operation::Compute(operator),
        Opcode::Neg => Operation::Neg,
        Opcode::Not => Operation::Not,
        Opcode::Jump => Operation::Jump(number_of(bytes)),
        Opcode::JumpZero => Operation::JumpZero(number_of(bytes)),
        Opcode::Call => Operation::Call(number_of(bytes)),
        Opcode::Return => Operation::Return,
        Opcode::Print => Operation::Print,
        Opcode::Trap => Operation::Trap,
        Opcode::Dup => Operation::Dup,
        Opcode::Nop => Operation::Nop,
    }
}

/// The instruction at this offset of code.
#[inline(always)]
pub fn read(code: &[u8], offset: usize) -> Operation
    requires { (i : Operation) × IsThere code.now offset i }
    ensures { IsThere code.now offset result }
{
    let opcode = Opcode::of(code[offset]).unwrap();
    with_operand(opcode, &code[offset + 1..])
}

impl Operation {
    /// How many bytes of code it is.
    pub fn size(self) -> usize
        ensures { result ≡ size self }
    {
        match self {
            Operation::Push8(_) | Operation::Load(_) | Operation::Store(_) => 2,
            Operation::Push64(_) => 9,
            Operation::Jump(_) | Operation::JumpZero(_) | Operation::Call(_) => 5,
            _ => 1,
        }
    }
}

/// The operations of a function's code take the place of those that were listed.
pub fn list(listed: &mut Vec<Placed>, code: &[u8]) -> Result<(), AllocError>
    requires short { length code.now ≤ max_code }
    requires whole { (count : Option ℕ) × (code_fault count 0 code.now ≡ None) }
    ensures { OnOk result (listed.new.items ≡ operations code.now) }
{
    listed.clear();
    let mut offset = 0;
    while offset < code.len() {
        let operation = read(code, offset);
        listed.push(Placed {
            offset: offset as u32,
            operation,
        })?;
        offset += operation.size();
    }
    Ok(())
}
