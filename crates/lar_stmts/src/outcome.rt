//! `return`.
ghost use Rattle.std.specs.Prelude.{◌≡◌, ◌<◌, length, Some, None, option_map, IfOk, OnOk};
ghost use Rattle.type_table.specs.TypeOf as type;
ghost use Rattle.type_table.specs.Rows.{Keeps, Stands};
ghost use Rattle.lar_tree.specs.ExprView.{expr_view};
ghost use Rattle.lar_rules.specs.Fault.{least};
ghost use Rattle.lar_rules.specs.Bodies as rules;
ghost use Rattle.lar_judge.specs.Here.{IsHere};
ghost use Rattle.lar_judge.specs.Known.{type_if, IfWithin};
ghost use Rattle.lar_judge.specs.Locals.{LocalsWithin};
ghost use Rattle.lar_stmts.specs.States.{body_in, state_in};
ghost use Rattle.lar_stmts.specs.Stmts.{StmtIs};

use crate::context::judged;
use crate::{Context, State};
use lar_judge::{Site, fitting_if, is_same, misfit_if};
use lar_source::Span;
use lar_told::First;
use lar_tree::Expr;
use lar_typed::TypedStmt;
use std::alloc::{AllocError, Global};
use type_table::{Row, Types};

/// The number of `()`.
pub fn unit_type(types: &mut Types) -> Result<usize, AllocError>
    ensures kept { Keeps types.old types.new }
    ensures number { IfOk result (λ n. Stands types.new n (type.tuple type.end)) }
{
    let none = types.intern(Row::End)?;
    types.intern(Row::Tuple(none))
}

/// `return` without a value, which gives `()`.
fn unit_returned<S: Site>(
    alloc: Global,
    types: &mut Types,
    first: &mut First,
    context: &Context<'_, S>,
    at: Span,
    outcome: usize,
) -> Result<Option<TypedStmt>, AllocError>
    requires here { IsHere context.now.here (S.site context.now.site.now) }
    requires outcome { outcome < length types.old }
    ensures kept { Keeps types.old types.new }
    ensures typed { IfOk result (λ r. StmtIs types.new r (rules.return_typed (type_if types.old (Some outcome)))) }
    ensures told { OnOk result (first.new ≡ least first.old (rules.return_misfit (body_in types.old (S.site context.now.site.now) context.now.outcome) at (type_if types.old (Some outcome)))) }
{
    let unit = unit_type(types)?;
    if is_same(types, unit, outcome) {
        return Ok(Some(TypedStmt::return_nothing()));
    }
    context
        .here
        .note_other_type(alloc, types, first, at, outcome, unit)?;
    Ok(None)
}

/// `return` with a value.
fn value_returned<S: Site>(
    alloc: Global,
    types: &mut Types,
    first: &mut First,
    context: &Context<'_, S>,
    state: &State<'_>,
    at: Span,
    value: &Expr,
) -> Result<Option<TypedStmt>, AllocError>
    requires here { IsHere context.now.here (S.site context.now.site.now) }
    requires stands { S.stands context.now.site.now types.old }
    requires locals { LocalsWithin types.old state.now.locals.locals.items }
    requires outcome { IfWithin types.old context.now.outcome }
    ensures kept { Keeps types.old types.new }
    ensures typed { IfOk result (λ r. StmtIs types.new r (rules.return_done (body_in types.old (S.site context.now.site.now) context.now.outcome) (state_in types.old state.now) at (Some (expr_view value.now))).typed) }
    ensures told { OnOk result (first.new ≡ least first.old (rules.return_done (body_in types.old (S.site context.now.site.now) context.now.outcome) (state_in types.old state.now) at (Some (expr_view value.now))).faults) }
{
    let value = judged(alloc, types, first, context, state, false, value)?;
    misfit_if(alloc, types, first, &context.here, context.outcome, &value)?;
    match fitting_if(types, context.outcome, value.typed) {
        None => Ok(None),
        Some(value) => Ok(Some(TypedStmt::return_value(value))),
    }
}

/// `return`.
pub fn return_done<S: Site>(
    alloc: Global,
    types: &mut Types,
    first: &mut First,
    context: &Context<'_, S>,
    state: &State<'_>,
    at: Span,
    value: &Option<Expr>,
) -> Result<Option<TypedStmt>, AllocError>
    requires here { IsHere context.now.here (S.site context.now.site.now) }
    requires stands { S.stands context.now.site.now types.old }
    requires locals { LocalsWithin types.old state.now.locals.locals.items }
    requires outcome { IfWithin types.old context.now.outcome }
    ensures kept { Keeps types.old types.new }
    ensures typed { IfOk result (λ r. StmtIs types.new r (rules.return_done (body_in types.old (S.site context.now.site.now) context.now.outcome) (state_in types.old state.now) at (option_map expr_view value.now)).typed) }
    ensures told { OnOk result (first.new ≡ least first.old (rules.return_done (body_in types.old (S.site context.now.site.now) context.now.outcome) (state_in types.old state.now) at (option_map expr_view value.now)).faults) }
{
    match value {
        Some(value) => value_returned(alloc, types, first, context, state, at, value),
        None => match context.outcome {
            None => Ok(None),
            Some(outcome) => unit_returned(alloc, types, first, context, at, outcome),
        },
    }
}
