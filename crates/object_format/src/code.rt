//! Code, from an instruction to the next: whether it is whole instructions, and its calls have callees.

ghost use Rattle.std.specs.Prelude.{◌≡◌, ◌+◌, ◌<◌, ◌^◌, length, IfSome, IfNone};
ghost use Rattle.object_format.specs.Opcode.{row};
ghost use Rattle.object_format.specs.Reading.{call_fault, code_fault};
ghost use Rattle.object_format.specs.Splitting.{with_operand, Splits, BeginsNone};

use crate::{BadFile, Opcode, What};

/// The opcode and the operand of the instruction with which code begins, and the code after it. `None` where the code is at its end,
/// or no whole instruction begins it.
#[inline(always)]
pub fn split_first(code: &[u8]) -> Option<(Opcode, &[u8], &[u8])>
    ensures some { IfSome result (λ x. Splits code.now (with_operand x.0 x.1.now) x.2.now) }
    ensures none { IfNone result (BeginsNone code.now) }
{
    let [byte, behind @ ..] = code else {
        return None;
    };
    let opcode = Opcode::of(*byte)?;
    if behind.len() < opcode.operand_len() {
        return None;
    }
    let (operand, left) = behind.split_at(opcode.operand_len());
    Some((opcode, operand, left))
}

/// The fault of a whole instruction that stands at this place of the file: a call of no function, where their count is known.
fn call_fault_of(callees: Option<u64>, at: u64, opcode: Opcode, operand: &[u8]) -> Option<BadFile>
    requires whole { length operand.now ≡ (row opcode).operand }
    requires fits { at + 1 < 2 ^ 64 }
    ensures { result ≡ call_fault callees at (with_operand opcode operand.now) }
{
    let count = callees?;
    match opcode {
        Opcode::Call => {
            let number = u32::from_be_bytes([operand[0], operand[1], operand[2], operand[3]]);
            if u64::from(number) < count {
                return None;
            }
            Some(BadFile {
                at: at + 1,
                what: What::Call,
            })
        }
        _ => None,
    }
}

/// The first fault of a function's code, which begins `at` bytes into the file. Calls are looked at where the count of functions
/// is known.
pub(crate) fn fault_of(callees: Option<u64>, at: u64, code: &[u8]) -> Option<BadFile>
    requires { at + length code.now < 2 ^ 64 }
    ensures { result ≡ code_fault callees at code.now }
{
    let mut place = at;
    let mut left = code;
    while !left.is_empty() {
        let Some((opcode, operand, behind)) = split_first(left) else {
            return Some(BadFile {
                at: place,
                what: What::Code,
            });
        };
        if let Some(fault) = call_fault_of(callees, place, opcode, operand) {
            return Some(fault);
        }
        place += 1 + operand.len() as u64;
        left = behind;
    }
    None
}
