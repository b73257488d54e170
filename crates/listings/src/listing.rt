//! The text of a listing. It is made at the end of a buffer, function by function, so that whoever puts it can empty the buffer in
//! between: a listing is some ten times as long as the code. Code is gone through once, from an instruction to the next.

ghost use Rattle.std.specs.Prelude.{◌≡◌, ◌++◌, length, codes, OnOk};
ghost use Rattle.std.specs.Fmt.{decimal};
ghost use Rattle.object_format.specs.Code.{IsWhole};
ghost use Rattle.object_format.specs.Opcode.{row};
ghost use Rattle.listings.specs.Listing as spec;

use itoa::{Buffer, Integer};
use object_format::{ImageFn, ObjectFn, Opcode, Operator, split_first};
use std::alloc::AllocError;

fn push_number<I: Integer>(text: &mut Vec<u8>, number: I) -> Result<(), AllocError>
    ensures { OnOk result (text.new.items ≡ text.old.items ++ I.text number) }
{
    let mut buffer = Buffer::new();
    text.extend_from_slice(buffer.format(number).as_bytes())?;
    Ok(())
}

fn operator_name(operator: Operator) -> &'static str
    ensures { result.now ≡ spec.operator_name operator }
{
    match operator {
        Operator::Add => "ADD",
        Operator::Sub => "SUB",
        Operator::Mul => "MUL",
        Operator::Div => "DIV",
        Operator::Rem => "REM",
        Operator::Equal => "EQ",
        Operator::NotEqual => "NE",
        Operator::Less => "LT",
        Operator::AtMost => "LE",
        Operator::Greater => "GT",
        Operator::AtLeast => "GE",
    }
}

fn name_of(opcode: Opcode) -> &'static str
    ensures { result.now ≡ spec.name_of opcode }
{
    match opcode {
        Opcode::Push8 => "PUSH8",
        Opcode::Push64 => "PUSH64",
        Opcode::Load => "LOAD",
        Opcode::Store => "STORE",
        Opcode::Pop => "POP",
        Opcode::Compute(operator) => operator_name(operator),
        Opcode::Neg => "NEG",
        Opcode::Not => "NOT",
        Opcode::Jump => "JMP",
        Opcode::JumpZero => "JZ",
        Opcode::Call => "CALL",
        Opcode::Return => "RET",
        Opcode::Print => "PRINT",
        Opcode::Trap => "TRAP",
        Opcode::Dup => "DUP",
        Opcode::Nop => "NOP",
    }
}

fn kind_word(external: bool) -> &'static str
    ensures { result.now ≡ spec.kind_word external }
{
    if external { "external " } else { "internal " }
}

fn push_operand(text: &mut Vec<u8>, opcode: Opcode, operand: &[u8]) -> Result<(), AllocError>
    requires { length operand.now ≡ (row opcode).operand }
    ensures { OnOk result (text.new.items ≡ text.old.items ++ spec.operand_text opcode operand.now) }
{
    match opcode {
        Opcode::Push8 => {
            text.push(b' ')?;
            push_number(text, i8::from_be_bytes([operand[0]]))
        }
        Opcode::Push64 => {
            text.push(b' ')?;
            let number = i64::from_be_bytes([
                operand[0], operand[1], operand[2], operand[3], operand[4], operand[5], operand[6],
                operand[7],
            ]);
            push_number(text, number)
        }
        Opcode::Load | Opcode::Store => {
            text.push(b' ')?;
            push_number(text, operand[0])
        }
        Opcode::Jump | Opcode::JumpZero | Opcode::Call => {
            text.push(b' ')?;
            let number = u32::from_be_bytes([operand[0], operand[1], operand[2], operand[3]]);
            push_number(text, number)
        }
        _ => Ok(()),
    }
}

fn push_line(
    text: &mut Vec<u8>,
    offset: usize,
    opcode: Opcode,
    operand: &[u8],
) -> Result<(), AllocError>
    requires { length operand.now ≡ (row opcode).operand }
    ensures { OnOk result (text.new.items ≡ text.old.items ++ spec.instruction_line offset opcode operand.now) }
{
    text.extend_from_slice(b"  ")?;
    push_number(text, offset)?;
    text.push(b' ')?;
    text.extend_from_slice(name_of(opcode).as_bytes())?;
    push_operand(text, opcode, operand)?;
    text.push(b'\n')?;
    Ok(())
}

fn push_code(text: &mut Vec<u8>, code: &[u8]) -> Result<(), AllocError>
    requires { IsWhole code.now }
    ensures { OnOk result (text.new.items ≡ text.old.items ++ spec.code_lines 0 code.now) }
{
    let mut offset = 0;
    let mut left = code;
    while let Some((opcode, operand, behind)) = split_first(left) {
        push_line(text, offset, opcode, operand)?;
        offset += 1 + operand.len();
        left = behind;
    }
    Ok(())
}

fn push_field(text: &mut Vec<u8>, name: &str, number: usize) -> Result<(), AllocError>
    ensures { OnOk result (text.new.items ≡ text.old.items ++ (name.now ++ decimal number)) }
{
    text.extend_from_slice(name.as_bytes())?;
    push_number(text, number)
}

fn push_body(
    text: &mut Vec<u8>,
    params: u8,
    results: u8,
    slots: u8,
    code: &[u8],
) -> Result<(), AllocError>
    requires { IsWhole code.now }
    ensures { OnOk result (text.new.items ≡ text.old.items ++ spec.body_text (record { params = params; «result» = results; slots = slots; code = code.now })) }
{
    push_field(text, "params ", params as usize)?;
    push_field(text, " result ", results as usize)?;
    push_field(text, " slots ", slots as usize)?;
    push_field(text, " code ", code.len())?;
    text.push(b'\n')?;
    push_code(text, code)
}

/// The line of an image's entry.
pub(crate) fn push_entry(text: &mut Vec<u8>, entry: u32) -> Result<(), AllocError>
    ensures { OnOk result (text.new.items ≡ text.old.items ++ (codes "entry " ++ decimal entry ++ codes "\n")) }
{
    push_field(text, "entry ", entry as usize)?;
    text.push(b'\n')?;
    Ok(())
}

/// The lines of a function of an image.
pub(crate) fn push_function(
    text: &mut Vec<u8>,
    number: usize,
    function: &ImageFn,
) -> Result<(), AllocError>
    ensures { OnOk result (text.new.items ≡ text.old.items ++ spec.function_text number function.now) }
{
    push_field(text, "fn ", number)?;
    text.push(b' ')?;
    push_body(
        text,
        function.params(),
        function.result(),
        function.slots(),
        function.code(),
    )
}

/// The lines of a function of an object.
pub(crate) fn push_unlinked(
    text: &mut Vec<u8>,
    number: usize,
    function: &ObjectFn,
) -> Result<(), AllocError>
    ensures { OnOk result (text.new.items ≡ text.old.items ++ spec.unlinked_text number function.now) }
{
    push_field(text, "fn ", number)?;
    text.push(b' ')?;
    text.extend_from_slice(function.symbol().as_str().as_bytes())?;
    text.push(b' ')?;
    text.extend_from_slice(kind_word(function.is_external()).as_bytes())?;
    push_body(
        text,
        function.params(),
        function.result(),
        function.slots(),
        function.code(),
    )
}

/// The line of an external.
pub(crate) fn push_use(text: &mut Vec<u8>, number: usize, symbol: &str) -> Result<(), AllocError>
    ensures { OnOk result (text.new.items ≡ text.old.items ++ spec.use_line number symbol.now) }
{
    push_field(text, "use ", number)?;
    text.push(b' ')?;
    text.extend_from_slice(symbol.as_bytes())?;
    text.push(b'\n')?;
    Ok(())
}
