use super::exprs::put_expr;
use super::stmts::put_block;
use crate::{BinaryOp, UnaryOp, UnitExpr, UnitFn, UnitInput, UnitStmt, fingerprint, spell};
use lar_bytes::Text;
use sqlite_items::Items;
use std::alloc::{AllocError, Global};
use std::test::Fail;

// The operators with the bytes of their texts.
const OPERATORS: [(BinaryOp, u8); 13] = [
    (BinaryOp::Add, 0x06),
    (BinaryOp::Sub, 0x07),
    (BinaryOp::Mul, 0x08),
    (BinaryOp::Div, 0x09),
    (BinaryOp::Rem, 0x0a),
    (BinaryOp::Equal, 0x0c),
    (BinaryOp::NotEqual, 0x0d),
    (BinaryOp::Less, 0x0e),
    (BinaryOp::AtMost, 0x0f),
    (BinaryOp::Greater, 0x10),
    (BinaryOp::AtLeast, 0x11),
    (BinaryOp::And, 0x20),
    (BinaryOp::Or, 0x21),
];

// The text of a block with each statement and each expression once: `let` of -2, a part of local 1 set to `true`, an `if` on `!local 2`
// around a `print` of a part of local 258, a `while` around nothing, a return of nothing, an assertion, and a call.
const EACH_ONCE: [u8; 95] = [
    0, 0, 0, 7, 0x01, 0, 0, 0, 0, 0x06, 0x0b, 0x01, 0, 0, 0, 0, 0, 0, 0, 2, 0x02, 0, 0, 0, 1, 1, 0,
    0, 1, 0x02, 1, 0x03, 0x06, 0x12, 0x03, 0, 0, 0, 2, 0, 0, 0, 1, 0x06, 0x04, 0, 3, 0, 1, 0x03, 0,
    0, 1, 2, 0, 0, 0, 0, 0x04, 0x02, 0, 0, 0, 0, 0, 0x05, 0x05, 0, 0x07, 0x02, 1, 0x08, 0x08, 0, 0,
    0, 9, 2, 0x03, 0, 0, 0, 4, 0x05, 2, 0x03, 0, 0, 0, 5, 0x03, 0, 0, 0, 6,
];

// The text of `fn main() { print(7); }` as a unit of its own, at level 1, and its name.
const PRINTS_7: [u8; 51] = [
    0x4c, 0x52, 0x55, 0x49, 0, 1, 1, 0, 0, 0, 1, 0, 0, 0, 10, 0x6d, 0x61, 0x69, 0x6e, 0x3a, 0x3a,
    0x6d, 0x61, 0x69, 0x6e, 1, 0, 0, 0, 0, 0, 0, 0, 0, 0, 0, 1, 0x06, 0x01, 0, 0, 0, 0, 0, 0, 0, 7,
    0, 0, 0, 0,
];

const PRINTS_7_NAME: [u8; 32] = [
    0x9b, 0xde, 0x5c, 0x20, 0x60, 0x11, 0x8d, 0x9f, 0x7f, 0x48, 0x63, 0xc6, 0xa0, 0x0f, 0x68, 0x82,
    0x98, 0x49, 0xc8, 0xc2, 0xc2, 0xc0, 0xfb, 0x94, 0xc3, 0x1d, 0x58, 0x21, 0xc9, 0x27, 0xec, 0x44,
];

fn prints_7(alloc: Global) -> Result<UnitInput, AllocError> {
    let symbol = Text::copied(alloc, "main::main")?;
    let mut body = Items::new(alloc);
    body.push(UnitStmt::print_stmt(UnitExpr::int(7)))?;
    let locals = Items::new(alloc);
    let mut functions = Items::new(alloc);
    functions.push(UnitFn {
        symbol,
        external: true,
        result: 0,
        params: 0,
        locals,
        body,
    })?;
    let externals = Items::new(alloc);
    Ok(UnitInput::new(1, functions, externals))
}

fn locals(alloc: Global, numbers: &[u32]) -> Result<Items<UnitExpr>, AllocError> {
    let mut list = Items::new(alloc);
    for number in numbers {
        list.push(UnitExpr::local(*number))?;
    }
    Ok(list)
}

fn fork(alloc: Global) -> Result<UnitStmt, AllocError> {
    let test = UnitExpr::unary(alloc, UnaryOp::Not, UnitExpr::local(2))?;
    let part = UnitExpr::field(alloc, UnitExpr::local(258), 3, 1)?;
    let mut then = Items::new(alloc);
    then.push(UnitStmt::print_stmt(part))?;
    Ok(UnitStmt::if_stmt(test, then, Items::new(alloc)))
}

fn call(alloc: Global) -> Result<UnitStmt, AllocError> {
    let mut args = locals(alloc, &[4])?;
    args.push(UnitExpr::tuple(locals(alloc, &[5, 6])?))?;
    Ok(UnitStmt::eval(UnitExpr::call(9, args)))
}

fn each_once(alloc: Global) -> Result<Items<UnitStmt>, AllocError> {
    let mut block = Items::new(alloc);
    let minus_two = UnitExpr::unary(alloc, UnaryOp::Neg, UnitExpr::int(2))?;
    block.push(UnitStmt::let_stmt(0, minus_two))?;
    block.push(UnitStmt::assign(1, 256, 1, UnitExpr::truth(true)))?;
    block.push(fork(alloc)?)?;
    block.push(UnitStmt::while_stmt(UnitExpr::truth(false), Items::new(alloc)))?;
    block.push(UnitStmt::return_stmt(UnitExpr::tuple(Items::new(alloc))))?;
    block.push(UnitStmt::assert_stmt(UnitExpr::truth(true)))?;
    block.push(call(alloc)?)?;
    Ok(block)
}

#[test]
fn a_whole_input_has_its_text_and_name(rt: HostRuntime) -> Result<(), Fail> {
    let alloc = rt.alloc();
    let input = prints_7(alloc)?;
    let text = spell(alloc, &input)?;
    assert_eq!(rt; text.as_slice(), PRINTS_7.as_slice());
    assert_eq!(rt; fingerprint(text.as_slice()), PRINTS_7_NAME);
    assert_eq!(rt; input.level(), 1);
    assert_eq!(rt; input.functions().len(), 1);
    assert_eq!(rt; input.externals().len(), 0);
    Ok(())
}

#[test]
fn each_construct_has_its_text(rt: HostRuntime) -> Result<(), Fail> {
    let alloc = rt.alloc();
    let block = each_once(alloc)?;
    let mut out = Vec::new(alloc);
    put_block(&mut out, block.as_slice())?;
    assert_eq!(rt; out.as_slice(), EACH_ONCE.as_slice());
    for (op, byte) in OPERATORS {
        let expr = UnitExpr::binary(alloc, op, UnitExpr::truth(true), UnitExpr::truth(false))?;
        let mut out = Vec::new(alloc);
        put_expr(&mut out, &expr)?;
        assert_eq!(rt; out.as_slice(), [0x07, byte, 0x02, 1, 0x02, 0].as_slice());
    }
    Ok(())
}
