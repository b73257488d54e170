//! The fields of `new`.
ghost use Rattle.std.specs.Prelude.{◌≡◌, ◌≤◌, IfOk, OnOk, Option, List, length};
ghost use Rattle.type_table.specs.TypeOf.{TypeOf};
ghost use Rattle.lar_rules.specs.Fault.{least};
ghost use Rattle.lar_rules.specs.Written.{Site};
ghost use Rattle.lar_rules.specs.Signatures.{Member};
ghost use Rattle.lar_rules.specs.Exprs.{Init, misset, set_typed};
ghost use Rattle.lar_judge.specs.Here.{IsHere};
ghost use Rattle.lar_judge.specs.Lists.{all_in, AllWithin, JudgedWithin};
ghost use Rattle.lar_judge.specs.Setting.{AreSet};
ghost use Rattle.lar_judge.specs.Wanted.{AllIfWithin};

use crate::callee::passed;
use crate::passing::all_misfits;
use crate::{Here, Judged};
use lar_source::{Code, Span};
use lar_told::First;
use lar_typed::TypedExpr;
use sqlite_items::Items;
use std::alloc::{AllocError, Global};
use type_table::Types;

/// The fields that `new` sets, where each has its type and all are there in their order. `names` are the places of their names, of which
/// the first `same` are those of the fields in their places.
pub fn set_fields(
    alloc: Global,
    types: &Types,
    first: &mut First,
    here: &Here<'_>,
    at: Span,
    wanted: &[Option<usize>],
    names: &[Span],
    same: usize,
    values: Vec<Judged>,
) -> Result<Option<Items<TypedExpr>>, AllocError>
    requires wanted { AllIfWithin types.now wanted.now }
    requires values { JudgedWithin types.now values.items }
    requires same { same ≤ length wanted.now }
    ensures within { IfOk result (λ r. AllWithin types.now r) }
    ensures is { IfOk result (λ r. (gs : Option TypeOf) (ms : List Member) (is : List Init) → AreSet types.now wanted.now names.now same values.items gs ms is → all_in types.now r ≡ set_typed gs ms is) }
    ensures told { (s : Site) (gs : Option TypeOf) (ms : List Member) (is : List Init) → IsHere here.now s → AreSet types.now wanted.now names.now same values.items gs ms is → OnOk result (first.new ≡ least first.old (misset s at gs ms is)) }
{
    all_misfits(alloc, types, first, here, &wanted[..same], &values)?;
    if same < names.len() {
        first.note_none(alloc, here.file, names[same], Code::NoSuchPlace);
        return Ok(None);
    }
    if same < wanted.len() {
        first.note_none(alloc, here.file, at, Code::NoSuchPlace);
        return Ok(None);
    }
    passed(alloc, types, wanted, values)
}
