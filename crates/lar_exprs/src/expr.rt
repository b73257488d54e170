//! The walk over an expression.
ghost use Rattle.std.specs.Prelude.{◌≡◌, ◌∷◌, IfOk, OnOk};
ghost use Rattle.type_table.specs.Rows.{Keeps};
ghost use Rattle.lar_tree.specs.ExprView.{expr_view, call_view, new_view};
ghost use Rattle.lar_tree.specs.PlainLists.{values};
ghost use Rattle.lar_rules.specs.Fault.{least};
ghost use Rattle.lar_rules.specs.Judged.{all_faults};
ghost use Rattle.lar_rules.specs.Exprs as rules;
ghost use Rattle.lar_judge.specs.Envs.{plain_env};
ghost use Rattle.lar_judge.specs.Here.{IsHere};
ghost use Rattle.lar_judge.specs.Known.{Knows};
ghost use Rattle.lar_judge.specs.Locals.{LocalsWithin};
ghost use Rattle.lar_exprs.specs.Walks.{judged_list, member_exprs, member_values, AllKnown};

use crate::names::{count, init_names};
use lar_judge::{
    Env, Judged, Site, binary, bracket, field, new_struct, number, path, truth, unary,
};
use lar_source::Span;
use lar_told::First;
use lar_tree::{Call, Commas, Expr, Init, New};
use std::alloc::{AllocError, Global};
use type_table::Types;

#[cycle(judging)]
fn expr_judged<S: Site>(
    e: &Expr,
    alloc: Global,
    types: &mut Types,
    first: &mut First,
    env: &Env<'_, S>,
) -> Result<Judged, AllocError>
    requires here { IsHere env.now.here (S.site env.now.site.now) }
    requires stands { S.stands env.now.site.now types.old }
    requires locals { LocalsWithin types.old env.now.locals.now.locals.items }
    ensures kept { Keeps types.old types.new }
    ensures known { IfOk result (λ r. Knows types.new r (rules.judge (plain_env (S.site env.now.site.now) types.old env.now.locals.now.locals.items env.now.asserting) (expr_view e.now))) }
    ensures told { OnOk result (first.new ≡ least first.old (rules.judge (plain_env (S.site env.now.site.now) types.old env.now.locals.now.locals.items env.now.asserting) (expr_view e.now)).faults) }
{
    match e {
        Expr::Number(value, at) => number(types, *at, *value),
        Expr::True(at) => truth(types, *at, true),
        Expr::False(at) => truth(types, *at, false),
        Expr::Paren(from, list, _) => match list {
            None => bracket(
                alloc,
                types,
                first,
                &env.here,
                env.asserting,
                *from,
                Vec::new(alloc),
            ),
            Some(list) => bracket_judged(*from, list.get(), alloc, types, first, env),
        },
        Expr::New(made) => new_judged(made.get(), alloc, types, first, env),
        Expr::Path(name) => path(alloc, types, first, env, name),
        Expr::Call(call) => call_judged(call.get(), alloc, types, first, env),
        Expr::Field(inner, _, selector) => {
            let inner = expr_judged(inner.get(), alloc, types, first, env)?;
            field(alloc, types, first, env, inner, selector)
        }
        Expr::Unary(op, at, inner) => {
            let inner = expr_judged(inner.get(), alloc, types, first, env)?;
            unary(alloc, types, first, &env.here, *op, *at, inner)
        }
        Expr::Binary(left, op, _, right) => {
            let left = expr_judged(left.get(), alloc, types, first, env)?;
            let right = expr_judged(right.get(), alloc, types, first, env)?;
            binary(alloc, types, first, &env.here, *op, left, right)
        }
    }
}

/// A bracket with one part or several.
#[cycle(judging)]
fn bracket_judged<S: Site>(
    from: Span,
    list: &Commas<Expr>,
    alloc: Global,
    types: &mut Types,
    first: &mut First,
    env: &Env<'_, S>,
) -> Result<Judged, AllocError>
    requires here { IsHere env.now.here (S.site env.now.site.now) }
    requires stands { S.stands env.now.site.now types.old }
    requires locals { LocalsWithin types.old env.now.locals.now.locals.items }
    ensures kept { Keeps types.old types.new }
    ensures known { IfOk result (λ r. Knows types.new r (rules.judged_paren (plain_env (S.site env.now.site.now) types.old env.now.locals.now.locals.items env.now.asserting) from (judged_list (plain_env (S.site env.now.site.now) types.old env.now.locals.now.locals.items env.now.asserting) (values list.now)))) }
    ensures told { OnOk result (first.new ≡ least first.old (rules.judged_paren (plain_env (S.site env.now.site.now) types.old env.now.locals.now.locals.items env.now.asserting) from (judged_list (plain_env (S.site env.now.site.now) types.old env.now.locals.now.locals.items env.now.asserting) (values list.now))).faults) }
{
    let parts = parts_judged(list, alloc, types, first, env)?;
    bracket(alloc, types, first, &env.here, env.asserting, from, parts)
}

/// The parts of a bracket, or the arguments of a call.
#[cycle(judging)]
fn parts_judged<S: Site>(
    list: &Commas<Expr>,
    alloc: Global,
    types: &mut Types,
    first: &mut First,
    env: &Env<'_, S>,
) -> Result<Vec<Judged>, AllocError>
    requires here { IsHere env.now.here (S.site env.now.site.now) }
    requires stands { S.stands env.now.site.now types.old }
    requires locals { LocalsWithin types.old env.now.locals.now.locals.items }
    ensures kept { Keeps types.old types.new }
    ensures known { IfOk result (λ js. AllKnown types.new js.items (judged_list (plain_env (S.site env.now.site.now) types.old env.now.locals.now.locals.items env.now.asserting) (values list.now))) }
    ensures told { OnOk result (first.new ≡ least first.old (all_faults (judged_list (plain_env (S.site env.now.site.now) types.old env.now.locals.now.locals.items env.now.asserting) (values list.now)))) }
{
    let mut out = Vec::new(alloc);
    out.push(expr_judged(&list.first, alloc, types, first, env)?)?;
    for member in list.more.as_slice() {
        out.push(expr_judged(&member.value, alloc, types, first, env)?)?;
    }
    Ok(out)
}

#[cycle(judging)]
fn call_judged<S: Site>(
    call: &Call,
    alloc: Global,
    types: &mut Types,
    first: &mut First,
    env: &Env<'_, S>,
) -> Result<Judged, AllocError>
    requires here { IsHere env.now.here (S.site env.now.site.now) }
    requires stands { S.stands env.now.site.now types.old }
    requires locals { LocalsWithin types.old env.now.locals.now.locals.items }
    ensures kept { Keeps types.old types.new }
    ensures known { IfOk result (λ r. Knows types.new r (rules.judge (plain_env (S.site env.now.site.now) types.old env.now.locals.now.locals.items env.now.asserting) (call_view call.now))) }
    ensures told { OnOk result (first.new ≡ least first.old (rules.judge (plain_env (S.site env.now.site.now) types.old env.now.locals.now.locals.items env.now.asserting) (call_view call.now)).faults) }
{
    let count = count(&call.args);
    let callee = env
        .site
        .callee(alloc, types, first, &call.path, &call.generics, count)?;
    match &call.args {
        None => {
            lar_judge::call(
                alloc,
                types,
                first,
                &env.here,
                env.asserting,
                &call.path,
                callee,
                Vec::new(alloc),
            )
        }
        Some(list) => {
            let parts = parts_judged(list, alloc, types, first, env)?;
            lar_judge::call(
                alloc,
                types,
                first,
                &env.here,
                env.asserting,
                &call.path,
                callee,
                parts,
            )
        }
    }
}

#[cycle(judging)]
fn new_judged<S: Site>(
    new: &New,
    alloc: Global,
    types: &mut Types,
    first: &mut First,
    env: &Env<'_, S>,
) -> Result<Judged, AllocError>
    requires here { IsHere env.now.here (S.site env.now.site.now) }
    requires stands { S.stands env.now.site.now types.old }
    requires locals { LocalsWithin types.old env.now.locals.now.locals.items }
    ensures kept { Keeps types.old types.new }
    ensures known { IfOk result (λ r. Knows types.new r (rules.judge (plain_env (S.site env.now.site.now) types.old env.now.locals.now.locals.items env.now.asserting) (new_view new.now))) }
    ensures told { OnOk result (first.new ≡ least first.old (rules.judge (plain_env (S.site env.now.site.now) types.old env.now.locals.now.locals.items env.now.asserting) (new_view new.now)).faults) }
{
    let at = new.keyword;
    let made = env
        .site
        .made(alloc, types, first, &new.path, &new.generics)?;
    let set = init_names(alloc, &new.inits)?;
    match &new.inits {
        None => {
            new_struct(
                alloc,
                types,
                first,
                &env.here,
                env.asserting,
                at,
                made,
                &set,
                Vec::new(alloc),
            )
        }
        Some(list) => {
            let values = values_judged(list, alloc, types, first, env)?;
            new_struct(
                alloc,
                types,
                first,
                &env.here,
                env.asserting,
                at,
                made,
                &set,
                values,
            )
        }
    }
}

/// What the fields of `new` are set to.
#[cycle(judging)]
fn values_judged<S: Site>(
    list: &Commas<Init>,
    alloc: Global,
    types: &mut Types,
    first: &mut First,
    env: &Env<'_, S>,
) -> Result<Vec<Judged>, AllocError>
    requires here { IsHere env.now.here (S.site env.now.site.now) }
    requires stands { S.stands env.now.site.now types.old }
    requires locals { LocalsWithin types.old env.now.locals.now.locals.items }
    ensures kept { Keeps types.old types.new }
    ensures known { IfOk result (λ js. AllKnown types.new js.items (judged_list (plain_env (S.site env.now.site.now) types.old env.now.locals.now.locals.items env.now.asserting) (list.now.first.value ∷ member_values list.now.more))) }
    ensures told { OnOk result (first.new ≡ least first.old (all_faults (judged_list (plain_env (S.site env.now.site.now) types.old env.now.locals.now.locals.items env.now.asserting) (list.now.first.value ∷ member_values list.now.more)))) }
{
    let mut out = Vec::new(alloc);
    out.push(expr_judged(&list.first.value, alloc, types, first, env)?)?;
    for member in list.more.as_slice() {
        out.push(expr_judged(&member.value.value, alloc, types, first, env)?)?;
    }
    Ok(out)
}

/// The type of an expression, and the faults in it.
pub fn judge<S: Site>(
    alloc: Global,
    types: &mut Types,
    first: &mut First,
    env: &Env<'_, S>,
    e: &Expr,
) -> Result<Judged, AllocError>
    requires here { IsHere env.now.here (S.site env.now.site.now) }
    requires stands { S.stands env.now.site.now types.old }
    requires locals { LocalsWithin types.old env.now.locals.now.locals.items }
    ensures kept { Keeps types.old types.new }
    ensures known { IfOk result (λ r. Knows types.new r (rules.judge (plain_env (S.site env.now.site.now) types.old env.now.locals.now.locals.items env.now.asserting) (expr_view e.now))) }
    ensures told { OnOk result (first.new ≡ least first.old (rules.judge (plain_env (S.site env.now.site.now) types.old env.now.locals.now.locals.items env.now.asserting) (expr_view e.now)).faults) }
{
    expr_judged(e, alloc, types, first, env)
}
