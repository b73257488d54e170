//! What stands behind a dot.
ghost use Rattle.std.specs.Prelude.{◌≡◌, List, IfOk, OnOk, Some};
ghost use Rattle.type_table.specs.declared.row.Row.{Row};
ghost use Rattle.type_table.specs.Rows.{Keeps};
ghost use Rattle.lar_rules.specs.Fault.{least};
ghost use Rattle.lar_rules.specs.Exprs as rules;
ghost use Rattle.lar_judge.specs.Envs.{plain_env};
ghost use Rattle.lar_judge.specs.Here.{IsHere};
ghost use Rattle.lar_judge.specs.Selected.{PartWithin, part_in, part_if, missing};
ghost use Rattle.lar_judge.specs.Known.{Knows, expr_in, typed_in, known, TypedWithin};

use crate::assertion::unless_asserting;
use crate::fit::label;
use crate::{Env, Judged, Part, Site};
use lar_source::{Code, Span};
use lar_told::First;
use lar_tree::Selector;
use lar_typed::TypedExpr;
use std::alloc::{AllocError, Global};
use type_table::Types;

/// Where a selector stands.
fn place(selector: &Selector) -> Span
    ensures { result ≡ rules.selector_at selector.now }
{
    match selector {
        Selector::Name(name) => name.span,
        Selector::Number(_, at) => *at,
    }
}

fn part_typed(
    alloc: Global,
    e: TypedExpr,
    part: Option<Part>,
) -> Result<Option<TypedExpr>, AllocError>
    ensures within { IfOk result (λ r. (rows : List Row) → TypedWithin rows (Some e) → PartWithin rows part → TypedWithin rows r) }
    ensures is { IfOk result (λ r. (rows : List Row) → typed_in rows r ≡ part_if (expr_in rows e) (part_in rows part)) }
{
    match part {
        None => Ok(None),
        Some(part) => match part.of {
            None => Ok(None),
            Some(of) => Ok(Some(TypedExpr::field(alloc, of, e, part.place)?)),
        },
    }
}

/// Notes a selector that names no part.
#[tactic(auto, using(crate::proofs::Least::least_none, crate::proofs::Least::least_one))]
fn note_missing(
    alloc: Global,
    first: &mut First,
    file: usize,
    selector: &Selector,
    part: Option<Part>,
)
    ensures { (rows : List Row) → first.new ≡ least first.old (missing file selector.now (part_in rows part)) }
{
    match part {
        None => first.note_none(alloc, file, place(selector), Code::NoSuchPlace),
        Some(_) => {}
    }
}

/// A part of a tuple or a field of a struct.
pub fn field<S: Site>(
    alloc: Global,
    types: &mut Types,
    first: &mut First,
    env: &Env<'_, S>,
    e: Judged,
    selector: &Selector,
) -> Result<Judged, AllocError>
    requires here { IsHere env.now.here (S.site env.now.site.now) }
    requires stands { S.stands env.now.site.now types.old }
    requires within { TypedWithin types.old e.typed }
    ensures kept { Keeps types.old types.new }
    ensures known { IfOk result (λ r. Knows types.new r (rules.judged_field (plain_env (S.site env.now.site.now) types.old env.now.locals.now.locals.items env.now.asserting) (known types.old e) selector.now)) }
    ensures told { OnOk result (first.new ≡ least first.old (rules.judged_field (plain_env (S.site env.now.site.now) types.old env.now.locals.now.locals.items env.now.asserting) (known types.old e) selector.now).faults) }
{
    let at = e.at;
    match e.typed {
        None => Ok(unless_asserting(alloc, first, &env.here, env.asserting, at, None)),
        Some(x) => {
            let part = env.site.select(types, label(&x), selector)?;
            note_missing(alloc, first, env.here.file, selector, part);
            let typed = part_typed(alloc, x, part)?;
            Ok(unless_asserting(alloc, first, &env.here, env.asserting, at, typed))
        }
    }
}
