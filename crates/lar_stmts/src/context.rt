//! What a body stands in, and its expressions.
ghost use Rattle.std.specs.Prelude.{◌≡◌, IfOk, OnOk};
ghost use Rattle.type_table.specs.Rows.{Keeps};
ghost use Rattle.lar_tree.specs.ExprView.{expr_view};
ghost use Rattle.lar_rules.specs.Fault.{least};
ghost use Rattle.lar_rules.specs.Exprs as rules;
ghost use Rattle.lar_judge.specs.Envs.{plain_env};
ghost use Rattle.lar_judge.specs.Here.{IsHere};
ghost use Rattle.lar_judge.specs.Known.{Knows};
ghost use Rattle.lar_judge.specs.Locals.{LocalsWithin};

use crate::State;
use lar_judge::{Env, Here, Judged, Site};
use lar_told::First;
use lar_tree::Expr;
use std::alloc::{AllocError, Global};
use type_table::Types;

/// What a body stands in: the names for its faults, the site of its function, and the type of the result, where that is known.
#[derive(Drop)]
pub struct Context<'a, S> {
    pub here: Here<'a>,
    pub site: &'a S,
    pub outcome: Option<usize>,
}

/// The type of an expression of a body, and the faults in it.
pub fn judged<S: Site>(
    alloc: Global,
    types: &mut Types,
    first: &mut First,
    context: &Context<'_, S>,
    state: &State<'_>,
    asserting: bool,
    e: &Expr,
) -> Result<Judged, AllocError>
    requires here { IsHere context.now.here (S.site context.now.site.now) }
    requires stands { S.stands context.now.site.now types.old }
    requires locals { LocalsWithin types.old state.now.locals.locals.items }
    ensures kept { Keeps types.old types.new }
    ensures known { IfOk result (λ r. Knows types.new r (rules.judge (plain_env (S.site context.now.site.now) types.old state.now.locals.locals.items asserting) (expr_view e.now))) }
    ensures told { OnOk result (first.new ≡ least first.old (rules.judge (plain_env (S.site context.now.site.now) types.old state.now.locals.locals.items asserting) (expr_view e.now)).faults) }
{
    let env = Env {
        here: context.here,
        site: context.site,
        locals: &state.locals,
        asserting,
    };
    lar_exprs::judge(alloc, types, first, &env, e)
}
