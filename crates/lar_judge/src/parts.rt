//! Brackets, tuples and lists of parts.
ghost use Rattle.std.specs.Prelude.{◌≡◌, List, option_map, IfOk, OnOk};
ghost use Rattle.type_table.specs.declared.row.Row.{Row};
ghost use Rattle.type_table.specs.TypeOf as type;
ghost use Rattle.type_table.specs.Rows.{Keeps, Stands};
ghost use Rattle.lar_typed.specs.Exprs as typed;
ghost use Rattle.lar_rules.specs.Fault.{least};
ghost use Rattle.lar_rules.specs.Judged as rules;
ghost use Rattle.lar_rules.specs.Judged.{Env};
ghost use Rattle.lar_rules.specs.Exprs.{types_of};
ghost use Rattle.lar_rules.specs.Exprs as rules_exprs;
ghost use Rattle.lar_judge.specs.Here.{IsEnv};
ghost use Rattle.lar_judge.specs.Known.{known, typed_in, TypedWithin, Knows};
ghost use Rattle.lar_judge.specs.Gathered.{then_last};
ghost use Rattle.lar_judge.specs.Lists.{exprs_in, all_in, ExprsAreWithin, AllWithin, JudgedWithin, knowns};

use crate::assertion::unless_asserting;
use crate::fit::label;
use crate::{Here, Judged};
use lar_source::Span;
use lar_told::First;
use lar_typed::TypedExpr;
use sqlite_items::Items;
use std::alloc::{AllocError, Global};
use type_table::{Row, Types};

/// The list with one more expression, where none has a fault in it.
#[tactic(auto, using(crate::proofs::Gathered::then_in, crate::proofs::Gathered::then_within))]
fn with_more(
    done: Option<Items<TypedExpr>>,
    e: Option<TypedExpr>,
) -> Result<Option<Items<TypedExpr>>, AllocError>
    ensures within { IfOk result (λ r. (rows : List Row) → AllWithin rows done → TypedWithin rows e → AllWithin rows r) }
    ensures is { IfOk result (λ r. (rows : List Row) → all_in rows r ≡ then_last (all_in rows done) (typed_in rows e)) }
{
    match (done, e) {
        (Some(mut done), Some(e)) => {
            done.push(e)?;
            Ok(Some(done))
        }
        _ => Ok(None),
    }
}

/// The expressions in order, where none has a fault in it.
pub fn gathered(alloc: Global, parts: Vec<Judged>) -> Result<Option<Items<TypedExpr>>, AllocError>
    ensures within { IfOk result (λ r. (rows : List Row) → JudgedWithin rows parts.items → AllWithin rows r) }
    ensures is { IfOk result (λ r. (rows : List Row) → all_in rows r ≡ rules.all_typed (knowns rows parts.items)) }
{
    let mut done = Some(Items::new(alloc));
    for part in parts {
        done = with_more(done, part.typed)?;
    }
    Ok(done)
}

/// The list of the types of expressions.
fn list_type(types: &mut Types, parts: &[TypedExpr]) -> Result<usize, AllocError>
    requires { ExprsAreWithin types.old parts.now }
    ensures kept { Keeps types.old types.new }
    ensures number { IfOk result (λ n. Stands types.new n (types_of (exprs_in types.old parts.now))) }
{
    let mut left = parts.len();
    let mut list = types.intern(Row::End)?;
    while left > 0 {
        left -= 1;
        list = types.intern(Row::More(label(&parts[left]), list))?;
    }
    Ok(list)
}

/// The expression of a tuple, where no part has a fault in it.
fn tuple_typed(
    types: &mut Types,
    parts: Option<Items<TypedExpr>>,
) -> Result<Option<TypedExpr>, AllocError>
    requires { AllWithin types.old parts }
    ensures kept { Keeps types.old types.new }
    ensures within { IfOk result (λ r. TypedWithin types.new r) }
    ensures is { IfOk result (λ r. typed_in types.new r ≡ option_map rules_exprs.tuple_typed (all_in types.old parts)) }
{
    match parts {
        None => Ok(None),
        Some(parts) => {
            let list = list_type(types, parts.as_slice())?;
            let of = types.intern(Row::Tuple(list))?;
            Ok(Some(TypedExpr::tuple(of, parts)))
        }
    }
}

/// A bracket that is a tuple: it has no part or several.
pub fn tuple(
    alloc: Global,
    types: &mut Types,
    first: &mut First,
    here: &Here<'_>,
    asserting: bool,
    at: Span,
    parts: Vec<Judged>,
) -> Result<Judged, AllocError>
    requires { JudgedWithin types.old parts.items }
    ensures kept { Keeps types.old types.new }
    ensures known { IfOk result (λ r. (env : Env) → IsEnv here.now asserting env → Knows types.new r (rules_exprs.judged_tuple env at (knowns types.old parts.items))) }
    ensures told { (env : Env) → IsEnv here.now asserting env → OnOk result (first.new ≡ least first.old (rules_exprs.judged_tuple env at (knowns types.old parts.items)).faults) }
{
    let parts = gathered(alloc, parts)?;
    let typed = tuple_typed(types, parts)?;
    Ok(unless_asserting(alloc, first, here, asserting, at, typed))
}
