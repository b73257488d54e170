//! Statements of one expression that has a wanted type.
ghost use Rattle.std.specs.Prelude.{◌≡◌, ◌++◌, ◌<◌, false, length, IfOk, OnOk};
ghost use Rattle.type_table.specs.TypeOf as type;
ghost use Rattle.type_table.specs.Rows.{Keeps, type_at};
ghost use Rattle.lar_tree.specs.ExprView.{expr_view};
ghost use Rattle.lar_tree.specs.StmtView.{asked_view};
ghost use Rattle.lar_tree.specs.Stmts.{print_stmt, assert_stmt};
ghost use Rattle.lar_rules.specs.Fault.{least};
ghost use Rattle.lar_rules.specs.Exprs as rules;
ghost use Rattle.lar_rules.specs.Judged.{fitting, misfit};
ghost use Rattle.lar_rules.specs.Bodies.{stmt_done};
ghost use Rattle.lar_judge.specs.Envs.{plain_env};
ghost use Rattle.lar_judge.specs.Here.{IsHere};
ghost use Rattle.lar_judge.specs.Known.{typed_in, TypedWithin};
ghost use Rattle.lar_judge.specs.Locals.{LocalsWithin};
ghost use Rattle.lar_stmts.specs.States.{body_in, state_in};
ghost use Rattle.lar_stmts.specs.Stmts.{StmtIs};

use crate::context::judged;
use crate::{Context, State};
use lar_judge::{Site, bool_type, fitting, int_type, misfit};
use lar_told::First;
use lar_tree::{Asked, Expr};
use lar_typed::{TypedExpr, TypedStmt};
use std::alloc::{AllocError, Global};
use type_table::Types;

/// An expression that has this type, and none where it has another one or a fault in it.
fn of_type<S: Site>(
    alloc: Global,
    types: &mut Types,
    first: &mut First,
    context: &Context<'_, S>,
    state: &State<'_>,
    asserting: bool,
    wanted: usize,
    e: &Expr,
) -> Result<Option<TypedExpr>, AllocError>
    requires here { IsHere context.now.here (S.site context.now.site.now) }
    requires stands { S.stands context.now.site.now types.old }
    requires locals { LocalsWithin types.old state.now.locals.locals.items }
    requires wanted { wanted < length types.old }
    ensures kept { Keeps types.old types.new }
    ensures within { IfOk result (λ r. TypedWithin types.new r) }
    ensures is { IfOk result (λ r. typed_in types.new r ≡ fitting (type_at types.old wanted) (rules.judge (plain_env (S.site context.now.site.now) types.old state.now.locals.locals.items asserting) (expr_view e.now))) }
    ensures told { OnOk result (first.new ≡ least first.old ((rules.judge (plain_env (S.site context.now.site.now) types.old state.now.locals.locals.items asserting) (expr_view e.now)).faults ++ misfit (S.site context.now.site.now) (type_at types.old wanted) (rules.judge (plain_env (S.site context.now.site.now) types.old state.now.locals.locals.items asserting) (expr_view e.now)))) }
{
    let value = judged(alloc, types, first, context, state, asserting, e)?;
    misfit(alloc, types, first, &context.here, wanted, &value)?;
    Ok(fitting(types, wanted, value.typed))
}

/// The condition of `if` or `while`.
pub fn condition<S: Site>(
    alloc: Global,
    types: &mut Types,
    first: &mut First,
    context: &Context<'_, S>,
    state: &State<'_>,
    e: &Expr,
) -> Result<Option<TypedExpr>, AllocError>
    requires here { IsHere context.now.here (S.site context.now.site.now) }
    requires stands { S.stands context.now.site.now types.old }
    requires locals { LocalsWithin types.old state.now.locals.locals.items }
    ensures kept { Keeps types.old types.new }
    ensures within { IfOk result (λ r. TypedWithin types.new r) }
    ensures is { IfOk result (λ r. typed_in types.new r ≡ fitting type.bool (rules.judge (plain_env (S.site context.now.site.now) types.old state.now.locals.locals.items false) (expr_view e.now))) }
    ensures told { OnOk result (first.new ≡ least first.old ((rules.judge (plain_env (S.site context.now.site.now) types.old state.now.locals.locals.items false) (expr_view e.now)).faults ++ misfit (S.site context.now.site.now) type.bool (rules.judge (plain_env (S.site context.now.site.now) types.old state.now.locals.locals.items false) (expr_view e.now)))) }
{
    let bool = bool_type(types)?;
    of_type(alloc, types, first, context, state, false, bool, e)
}

/// `print`.
pub fn print_done<S: Site>(
    alloc: Global,
    types: &mut Types,
    first: &mut First,
    context: &Context<'_, S>,
    state: &State<'_>,
    asked: &Asked,
) -> Result<Option<TypedStmt>, AllocError>
    requires here { IsHere context.now.here (S.site context.now.site.now) }
    requires stands { S.stands context.now.site.now types.old }
    requires locals { LocalsWithin types.old state.now.locals.locals.items }
    ensures kept { Keeps types.old types.new }
    ensures typed { IfOk result (λ r. StmtIs types.new r (stmt_done (body_in types.old (S.site context.now.site.now) context.now.outcome) (state_in types.old state.now) (print_stmt (asked_view asked.now))).typed) }
    ensures told { OnOk result (first.new ≡ least first.old (stmt_done (body_in types.old (S.site context.now.site.now) context.now.outcome) (state_in types.old state.now) (print_stmt (asked_view asked.now))).faults) }
{
    let int = int_type(types)?;
    let value = of_type(
        alloc,
        types,
        first,
        context,
        state,
        false,
        int,
        &asked.value,
    )?;
    match value {
        None => Ok(None),
        Some(value) => Ok(Some(TypedStmt::print(value))),
    }
}

/// `static_assert`.
pub fn assert_done<S: Site>(
    alloc: Global,
    types: &mut Types,
    first: &mut First,
    context: &Context<'_, S>,
    state: &State<'_>,
    asked: &Asked,
) -> Result<Option<TypedStmt>, AllocError>
    requires here { IsHere context.now.here (S.site context.now.site.now) }
    requires stands { S.stands context.now.site.now types.old }
    requires locals { LocalsWithin types.old state.now.locals.locals.items }
    ensures kept { Keeps types.old types.new }
    ensures typed { IfOk result (λ r. StmtIs types.new r (stmt_done (body_in types.old (S.site context.now.site.now) context.now.outcome) (state_in types.old state.now) (assert_stmt (asked_view asked.now))).typed) }
    ensures told { OnOk result (first.new ≡ least first.old (stmt_done (body_in types.old (S.site context.now.site.now) context.now.outcome) (state_in types.old state.now) (assert_stmt (asked_view asked.now))).faults) }
{
    let bool = bool_type(types)?;
    let value = of_type(
        alloc,
        types,
        first,
        context,
        state,
        true,
        bool,
        &asked.value,
    )?;
    match value {
        None => Ok(None),
        Some(value) => Ok(Some(TypedStmt::static_assert(value, asked.keyword))),
    }
}
