//! Code as it is written: instructions at its end, and jumps whose target is filled in later.

ghost use Rattle.std.specs.Prelude.{◌≡◌, ◌++◌, ◌∷◌, ◌+◌, ◌≤◌, [], length, take, drop, OnOk, IfOk};
ghost use Rattle.std.specs.Int.{w32, to_be_bytes};
ghost use Rattle.object_format.specs.Code.{bytes_of};
ghost use Rattle.unit_emit.specs.Code.{plain, with_byte, with_number, push, one, Emits, mended};

use object_format::Opcode;
use std::alloc::AllocError;

/// An instruction without an operand.
pub(crate) fn put(code: &mut Vec<u8>, opcode: Opcode) -> Result<(), AllocError>
    ensures { OnOk result (Emits code.old.items (one (plain opcode)) code.new.items) }
{
    code.push(opcode.number())?;
    Ok(())
}

/// An instruction with a byte behind it.
pub(crate) fn put_byte(code: &mut Vec<u8>, opcode: Opcode, byte: u8) -> Result<(), AllocError>
    ensures { OnOk result (Emits code.old.items (one (with_byte opcode byte)) code.new.items) }
{
    code.push(opcode.number())?;
    code.push(byte)?;
    Ok(())
}

/// An instruction with a number behind it.
pub(crate) fn put_number(code: &mut Vec<u8>, opcode: Opcode, number: u32) -> Result<(), AllocError>
    ensures { OnOk result (Emits code.old.items (one (with_number opcode number)) code.new.items) }
{
    code.push(opcode.number())?;
    code.extend_from_slice(&number.to_be_bytes())?;
    Ok(())
}

/// The push of a word, as short as may be.
pub(crate) fn put_push(code: &mut Vec<u8>, word: i64) -> Result<(), AllocError>
    ensures { OnOk result (Emits code.old.items (one (push word)) code.new.items) }
{
    if -128 <= word && word <= 127 {
        put_byte(code, Opcode::Push8, (word as i8).cast_unsigned())
    } else {
        code.push(Opcode::Push64.number())?;
        code.extend_from_slice(&word.to_be_bytes())?;
        Ok(())
    }
}

/// The operand at this place becomes a number.
pub(crate) fn mend(code: &mut Vec<u8>, at: usize, target: usize)
    requires { at + 4 ≤ length code.old.items }
    ensures { code.new.items ≡ mended code.old.items at target }
{
    let bytes = target.to_be_bytes();
    code[at..at + 4].copy_from_slice(&bytes[4..]);
}
