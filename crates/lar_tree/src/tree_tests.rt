// A tree as deep as the limits let it be.
use super::*;
use sqlite_items::Items;
use std::alloc::{AllocError, Global};
use std::test::Fail;

const AT: Span = Span {
    file: 0,
    line: 1,
    col: 1,
};

fn function(alloc: Global, body: Block) -> Result<Item, AllocError> {
    Ok(Item::fn_item(Fn {
        attributes: Items::new(alloc),
        keyword: AT,
        name: Name {
            text: Text::copied(alloc, "f")?,
            span: AT,
        },
        generics: None,
        open: AT,
        params: None,
        close: AT,
        output: None,
        body,
    }))
}

fn brackets(alloc: Global) -> Result<Expr, AllocError> {
    let mut inner = Expr::number(1, AT);
    for _ in 0..255 {
        inner = Expr::paren(alloc, AT, Some(Commas::one(alloc, inner)), AT)?;
    }
    Ok(inner)
}

fn signs(alloc: Global) -> Result<Expr, AllocError> {
    let mut inner = Expr::number(1, AT);
    for _ in 0..511 {
        inner = Expr::unary(alloc, Unary::Minus, AT, inner)?;
    }
    Ok(inner)
}

fn block(alloc: Global, stmt: Stmt) -> Result<Block, AllocError> {
    let mut stmts = Items::new(alloc);
    stmts.push(stmt)?;
    Ok(Block::new(AT, stmts, AT))
}

fn nested(alloc: Global, sum: Expr) -> Result<Block, AllocError> {
    let mut body = block(alloc, Stmt::expr_stmt(alloc, sum, None, AT)?)?;
    for _ in 0..64 {
        body = block(alloc, Stmt::while_stmt(AT, Expr::truth(AT), body))?;
    }
    Ok(body)
}

// As deep as 512 tokens let brackets and signs be, and blocks 64 levels deep.
#[test]
fn deep_trees(rt: HostRuntime) -> Result<(), Fail> {
    let alloc = rt.alloc();
    let sum = Expr::binary(alloc, brackets(alloc)?, Binary::Plus, AT, signs(alloc)?)?;
    let mut items = Items::new(alloc);
    items.push(function(alloc, nested(alloc, sum)?)?)?;
    let tree = Tree {
        file: Text::new(),
        items,
    };
    let kinds = spell_tree(alloc, &tree)?;
    // A head of 4 tokens, 65 braces twice, 64 times `while true`, 511 and 512 tokens with a sign between, and the semicolon.
    assert_eq!(rt; kinds.len(), 4 + 130 + 128 + 511 + 1 + 512 + 1);
    Ok(())
}
