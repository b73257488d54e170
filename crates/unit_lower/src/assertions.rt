//! What the assertions of a body come to. They are made of numbers, truths and operators alone, so each has a value or traps.

ghost use Rattle.std.specs.Prelude.{◌≡◌, ◌+◌, ◌<◌, ◌^◌, None, length};
ghost use Rattle.unit_input.specs.InputView.{expr_view, stmt_view, stmts_view};
ghost use Rattle.unit_input.specs.Stmts.{stmt_total, stmts_total};
ghost use Rattle.unit_lower.specs.Assertions as plain;

use crate::operator::{Operator, operator_of, unary_of};
use unit_input::{UnitExpr, UnitStmt};

/// The diagnostic's number of an assertion that is false.
const FALSE: u8 = 30;

/// The diagnostic's number of an assertion that traps.
const TRAPS: u8 = 31;

/// Why an assertion fails: the diagnostic's number, and the number of the assertion in its body.
#[derive(Clone, Copy, Debug, PartialEq, Eq)]
pub(crate) struct Failure {
    pub(crate) code: u8,
    pub(crate) number: u32,
}

// What an operator gives for the values of its sides. Both sides are known, so nothing is lost where one of them is not asked for.
fn combined(op: Operator, a: Option<i64>, b: Option<i64>) -> Option<i64>
    ensures { result ≡ plain.combined op a b }
{
    match op {
        Operator::OnWords(op) => op.apply(a?, b?),
        Operator::And => match a? {
            0 => Some(0),
            _ => b,
        },
        Operator::Or => match a? {
            0 => b,
            _ => Some(1),
        },
    }
}

// The word of an assertion's expression, or none where it traps.
#[cycle(value)]
fn value(e: &UnitExpr) -> Option<i64>
    ensures { result ≡ plain.value (expr_view e.now) }
{
    match e {
        UnitExpr::Int(v) => Some(*v),
        UnitExpr::Bool(b) => Some(if *b { 1 } else { 0 }),
        UnitExpr::Unary(op, e) => match value(e.get()) {
            Some(v) => Some(unary_of(*op).apply(v)),
            None => None,
        },
        UnitExpr::Binary(op, a, b) => {
            let a = value(a.get());
            let b = value(b.get());
            combined(operator_of(*op), a, b)
        }
        UnitExpr::Local(_) => None,
        UnitExpr::Field(_, _, _) => None,
        UnitExpr::Tuple(_) => None,
        UnitExpr::Call(_, _) => None,
    }
}

// How an assertion with this number fails, if it does.
fn failure_of(e: &UnitExpr, number: u32) -> Option<Failure>
    ensures { result ≡ plain.judged number (plain.value (expr_view e.now)) None }
{
    match value(e) {
        None => Some(Failure {
            code: TRAPS,
            number,
        }),
        Some(0) => Some(Failure {
            code: FALSE,
            number,
        }),
        Some(_) => None,
    }
}

/// The first assertion of a list that fails. `next` is the number of the first one; without a failure it is raised by their number.
#[cycle(asserts)]
#[tactic(auto, using(crate::proofs::Failures::asserted_start, crate::proofs::Failures::room_item, crate::proofs::Failures::failed_item, crate::proofs::Failures::more_item, crate::proofs::Failures::none_failed, crate::proofs::Failures::all_counted))]
pub(crate) fn first_failure(stmts: &[UnitStmt], next: &mut u32) -> Option<Failure>
    requires { next.old + stmts_total (stmts_view stmts.now) < 2 ^ 32 }
    ensures failure { result ≡ plain.first_failure next.old (plain.assertions (stmts_view stmts.now)) }
    ensures next { result ≡ None → next.new ≡ next.old + length (plain.assertions (stmts_view stmts.now)) }
{
    for stmt in stmts {
        match stmt_failure(stmt, next) {
            Some(failure) => return Some(failure),
            None => {}
        }
    }
    None
}

// The same of one statement.
#[cycle(asserts)]
#[tactic(auto, using(crate::proofs::Failures::fork_failed, crate::proofs::Failures::fork_room, crate::proofs::Failures::fork_rest, crate::proofs::Failures::fork_count))]
fn stmt_failure(stmt: &UnitStmt, next: &mut u32) -> Option<Failure>
    requires { next.old + stmt_total (stmt_view stmt.now) < 2 ^ 32 }
    ensures failure { result ≡ plain.first_failure next.old (plain.stmt_assertions (stmt_view stmt.now)) }
    ensures next { result ≡ None → next.new ≡ next.old + length (plain.stmt_assertions (stmt_view stmt.now)) }
{
    match stmt {
        UnitStmt::If(_, a, b) => {
            match first_failure(a.as_slice(), next) {
                Some(failure) => Some(failure),
                None => first_failure(b.as_slice(), next),
            }
        }
        UnitStmt::While(_, a) => first_failure(a.as_slice(), next),
        UnitStmt::Assert(e) => {
            let number = *next;
            *next = number + 1;
            failure_of(e, number)
        }
        UnitStmt::Let(_, _) => None,
        UnitStmt::Assign(_, _, _, _) => None,
        UnitStmt::Return(_) => None,
        UnitStmt::Print(_) => None,
        UnitStmt::Eval(_) => None,
    }
}
