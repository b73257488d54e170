//! Expressions as statements, and assignments.
ghost use Rattle.std.specs.Prelude.{◌≡◌, ◌++◌, List, None, Some, false, option_map, IfOk, OnOk};
ghost use Rattle.type_table.specs.declared.row.Row.{Row};
ghost use Rattle.type_table.specs.Rows.{Keeps};
ghost use Rattle.lar_tree.specs.ExprView.{expr_view};
ghost use Rattle.lar_tree.specs.StmtView.{setting_view};
ghost use Rattle.lar_rules.specs.Fault.{least};
ghost use Rattle.lar_rules.specs.Bodies as rules;
ghost use Rattle.lar_judge.specs.Here.{IsHere};
ghost use Rattle.lar_judge.specs.Known.{type_if, typed_in, IfWithin, TypedWithin};
ghost use Rattle.lar_judge.specs.Envs.{plain_env};
ghost use Rattle.lar_judge.specs.Locals.{LocalsWithin};
ghost use Rattle.lar_stmts.specs.States.{body_in, state_in};
ghost use Rattle.lar_stmts.specs.Stmts.{StmtIs, stmt_if, StmtIfWithin};
ghost use Rattle.lar_stmts.specs.Targets.{target_in, TargetWithin};

use crate::context::judged;
use crate::place::is_place;
use crate::target::{Target, target_of};
use crate::{Context, State};
use lar_judge::{Site, fitting_if, label, misfit_if};
use lar_source::{Code, Span};
use lar_told::First;
use lar_tree::{Expr, Setting};
use lar_typed::{TypedExpr, TypedStmt};
use sqlite_items::Boxed;
use std::alloc::{AllocError, Global};
use type_table::Types;

/// Notes a place that is none.
fn note_misplaced<S: Site>(
    alloc: Global,
    first: &mut First,
    context: &Context<'_, S>,
    state: &State<'_>,
    place: &Expr,
    at: Span,
)
    requires { IsHere context.now.here (S.site context.now.site.now) }
    ensures { (rows : List Row) → first.new ≡ least first.old (rules.misplaced (plain_env (S.site context.now.site.now) rows state.now.locals.locals.items false) (expr_view place.now) at) }
{
    if !is_place(place, &state.locals) {
        first.note_none(alloc, context.here.file, at, Code::NoSuchPlace);
    }
}

/// The type of a place, where that is known.
fn label_if(e: &Option<TypedExpr>) -> Option<usize>
    ensures within { (rows : List Row) → TypedWithin rows e.now → IfWithin rows result }
    ensures is { (rows : List Row) → type_if rows result ≡ rules.label_if (typed_in rows e.now) }
{
    match e {
        None => None,
        Some(e) => Some(label(e)),
    }
}

/// The place that an expression is, where it is known and is one.
fn target_if(alloc: Global, e: &Option<TypedExpr>) -> Result<Option<Target>, AllocError>
    ensures within { IfOk result (λ r. (rows : List Row) → TypedWithin rows e.now → TargetWithin rows r) }
    ensures is { IfOk result (λ r. (rows : List Row) → target_in rows r ≡ rules.target_if (typed_in rows e.now)) }
{
    match e {
        None => Ok(None),
        Some(e) => target_of(e, alloc),
    }
}

fn assigned(target: Option<Target>, value: Option<TypedExpr>) -> Option<TypedStmt>
    ensures within { (rows : List Row) → TargetWithin rows target → TypedWithin rows value → StmtIfWithin rows result }
    ensures is { (rows : List Row) → stmt_if rows result ≡ rules.assigned (target_in rows target) (typed_in rows value) }
{
    match target {
        None => None,
        Some(target) => match value {
            None => None,
            Some(value) => {
                let Target { local, steps } = target;
                Some(TypedStmt::assign(local, steps, value))
            }
        },
    }
}

/// An assignment. The place is judged as an expression too; the value has its type.
fn assign_done<S: Site>(
    alloc: Global,
    types: &mut Types,
    first: &mut First,
    context: &Context<'_, S>,
    state: &State<'_>,
    place: &Expr,
    setting: &Setting,
) -> Result<Option<TypedStmt>, AllocError>
    requires here { IsHere context.now.here (S.site context.now.site.now) }
    requires stands { S.stands context.now.site.now types.old }
    requires locals { LocalsWithin types.old state.now.locals.locals.items }
    ensures kept { Keeps types.old types.new }
    ensures typed { IfOk result (λ r. StmtIs types.new r (rules.expr_done (body_in types.old (S.site context.now.site.now) context.now.outcome) (state_in types.old state.now) (expr_view place.now) (Some (setting_view setting.now))).typed) }
    ensures told { OnOk result (first.new ≡ least first.old (rules.expr_done (body_in types.old (S.site context.now.site.now) context.now.outcome) (state_in types.old state.now) (expr_view place.now) (Some (setting_view setting.now))).faults) }
{
    let left = judged(alloc, types, first, context, state, false, place)?;
    note_misplaced(alloc, first, context, state, place, left.at);
    let right = judged(alloc, types, first, context, state, false, &setting.value)?;
    let wanted = label_if(&left.typed);
    misfit_if(alloc, types, first, &context.here, wanted, &right)?;
    let target = target_if(alloc, &left.typed)?;
    Ok(assigned(target, fitting_if(types, wanted, right.typed)))
}

/// An expression whose value is not used.
fn eval_done<S: Site>(
    alloc: Global,
    types: &mut Types,
    first: &mut First,
    context: &Context<'_, S>,
    state: &State<'_>,
    e: &Expr,
) -> Result<Option<TypedStmt>, AllocError>
    requires here { IsHere context.now.here (S.site context.now.site.now) }
    requires stands { S.stands context.now.site.now types.old }
    requires locals { LocalsWithin types.old state.now.locals.locals.items }
    ensures kept { Keeps types.old types.new }
    ensures typed { IfOk result (λ r. StmtIs types.new r (rules.expr_done (body_in types.old (S.site context.now.site.now) context.now.outcome) (state_in types.old state.now) (expr_view e.now) None).typed) }
    ensures told { OnOk result (first.new ≡ least first.old (rules.expr_done (body_in types.old (S.site context.now.site.now) context.now.outcome) (state_in types.old state.now) (expr_view e.now) None).faults) }
{
    let value = judged(alloc, types, first, context, state, false, e)?;
    match value.typed {
        None => Ok(None),
        Some(value) => Ok(Some(TypedStmt::eval(value))),
    }
}

/// An expression, and what it is set to.
pub fn expr_done<S: Site>(
    alloc: Global,
    types: &mut Types,
    first: &mut First,
    context: &Context<'_, S>,
    state: &State<'_>,
    e: &Expr,
    setting: &Option<Boxed<Setting>>,
) -> Result<Option<TypedStmt>, AllocError>
    requires here { IsHere context.now.here (S.site context.now.site.now) }
    requires stands { S.stands context.now.site.now types.old }
    requires locals { LocalsWithin types.old state.now.locals.locals.items }
    ensures kept { Keeps types.old types.new }
    ensures typed { IfOk result (λ r. StmtIs types.new r (rules.expr_done (body_in types.old (S.site context.now.site.now) context.now.outcome) (state_in types.old state.now) (expr_view e.now) (option_map setting_view setting.now)).typed) }
    ensures told { OnOk result (first.new ≡ least first.old (rules.expr_done (body_in types.old (S.site context.now.site.now) context.now.outcome) (state_in types.old state.now) (expr_view e.now) (option_map setting_view setting.now)).faults) }
{
    match setting {
        None => eval_done(alloc, types, first, context, state, e),
        Some(setting) => assign_done(alloc, types, first, context, state, e, setting.get()),
    }
}
