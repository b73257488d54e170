//! Typed statements of typed parts.
ghost use Rattle.std.specs.Prelude.{◌≡◌, List, IfOk};
ghost use Rattle.type_table.specs.declared.row.Row.{Row};
ghost use Rattle.lar_rules.specs.Bodies as rules;
ghost use Rattle.lar_judge.specs.Known.{typed_in, TypedWithin};
ghost use Rattle.lar_stmts.specs.Stmts.{stmt_if, stmts_if, StmtIfWithin, StmtsIfWithin};
ghost use Rattle.lar_bodies.specs.Walks.{then_last, only_one};

use lar_typed::{TypedExpr, TypedStmt};
use sqlite_items::Items;
use std::alloc::{AllocError, Global};

/// The list with one more statement, where there is no fault in any.
#[tactic(auto, using(crate::proofs::Lists::then_in, crate::proofs::Lists::then_within))]
pub(crate) fn with_more(
    done: Option<Items<TypedStmt>>,
    stmt: Option<TypedStmt>,
) -> Result<Option<Items<TypedStmt>>, AllocError>
    ensures within { IfOk result (λ r. (rows : List Row) → StmtsIfWithin rows done → StmtIfWithin rows stmt → StmtsIfWithin rows r) }
    ensures is { IfOk result (λ r. (rows : List Row) → stmts_if rows r ≡ then_last (stmts_if rows done) (stmt_if rows stmt)) }
{
    match (done, stmt) {
        (Some(mut done), Some(stmt)) => {
            done.push(stmt)?;
            Ok(Some(done))
        }
        _ => Ok(None),
    }
}

/// The list of one statement.
pub(crate) fn only(
    alloc: Global,
    stmt: Option<TypedStmt>,
) -> Result<Option<Items<TypedStmt>>, AllocError>
    ensures within { IfOk result (λ r. (rows : List Row) → StmtIfWithin rows stmt → StmtsIfWithin rows r) }
    ensures is { IfOk result (λ r. (rows : List Row) → stmts_if rows r ≡ only_one (stmt_if rows stmt)) }
{
    match stmt {
        None => Ok(None),
        Some(stmt) => {
            let mut done = Items::new(alloc);
            done.push(stmt)?;
            Ok(Some(done))
        }
    }
}

/// `if`.
pub(crate) fn fork(
    test: Option<TypedExpr>,
    then: Option<Items<TypedStmt>>,
    other: Option<Items<TypedStmt>>,
) -> Option<TypedStmt>
    ensures within { (rows : List Row) → TypedWithin rows test → StmtsIfWithin rows then → StmtsIfWithin rows other → StmtIfWithin rows result }
    ensures is { (rows : List Row) → stmt_if rows result ≡ rules.fork_typed (typed_in rows test) (stmts_if rows then) (stmts_if rows other) }
{
    match test {
        None => None,
        Some(test) => match then {
            None => None,
            Some(then) => match other {
                None => None,
                Some(other) => Some(TypedStmt::fork(test, then, other)),
            },
        },
    }
}

/// `while`.
pub(crate) fn while_loop(
    test: Option<TypedExpr>,
    body: Option<Items<TypedStmt>>,
) -> Option<TypedStmt>
    ensures within { (rows : List Row) → TypedWithin rows test → StmtsIfWithin rows body → StmtIfWithin rows result }
    ensures is { (rows : List Row) → stmt_if rows result ≡ rules.loop_typed (typed_in rows test) (stmts_if rows body) }
{
    match test {
        None => None,
        Some(test) => match body {
            None => None,
            Some(body) => Some(TypedStmt::while_loop(test, body)),
        },
    }
}
