//! `let`.
ghost use Rattle.std.specs.Prelude.{◌≡◌, ◌∷◌, ◌++◌, [], length, IfOk, OnOk};
ghost use Rattle.type_table.specs.Rows.{Keeps};
ghost use Rattle.lar_tree.specs.StmtView.{let_view};
ghost use Rattle.lar_tree.specs.Stmts.{let_stmt};
ghost use Rattle.lar_rules.specs.Fault.{least};
ghost use Rattle.lar_rules.specs.Bodies.{stmt_done};
ghost use Rattle.lar_judge.specs.Here.{IsHere};
ghost use Rattle.lar_stmts.specs.States.{body_in, state_in, StateWithin, StateIs, IsLonger};
ghost use Rattle.lar_stmts.specs.Stmts.{StmtIs};

use crate::context::judged;
use crate::{Context, State};
use lar_judge::{Site, fitting_if, misfit_if};
use lar_told::First;
use lar_tree::Let;
use lar_typed::TypedStmt;
use std::alloc::{AllocError, Global};
use type_table::Types;

/// `let`. Its value is judged before the local is there.
pub fn let_done<'a, S: Site>(
    alloc: Global,
    types: &mut Types,
    first: &mut First,
    context: &Context<'_, S>,
    state: &mut State<'a>,
    local: &'a Let,
) -> Result<Option<TypedStmt>, AllocError>
    requires here { IsHere context.now.here (S.site context.now.site.now) }
    requires stands { S.stands context.now.site.now types.old }
    requires state { StateWithin types.old state.old }
    ensures kept { Keeps types.old types.new }
    ensures typed { IfOk result (λ r. StmtIs types.new r (stmt_done (body_in types.old (S.site context.now.site.now) context.now.outcome) (state_in types.old state.old) (let_stmt (let_view local.now))).typed) }
    ensures after { OnOk result (StateIs types.new state.new (stmt_done (body_in types.old (S.site context.now.site.now) context.now.outcome) (state_in types.old state.old) (let_stmt (let_view local.now))).after) }
    ensures scope { OnOk result (IsLonger state.old.locals.locals.items state.new.locals.locals.items) }
    ensures told { OnOk result (first.new ≡ least first.old (stmt_done (body_in types.old (S.site context.now.site.now) context.now.outcome) (state_in types.old state.old) (let_stmt (let_view local.now))).faults) }
{
    let of = context.site.written(alloc, types, first, &local.ty)?;
    let value = judged(alloc, types, first, context, state, false, &local.value)?;
    misfit_if(alloc, types, first, &context.here, of, &value)?;
    let value = fitting_if(types, of, value.typed);
    let number = state.count();
    state.declare(&local.name.text, of)?;
    match value {
        None => Ok(None),
        Some(value) => Ok(Some(TypedStmt::let_local(number, value))),
    }
}
