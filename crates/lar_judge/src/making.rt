//! Structs that `new` makes.
ghost use Rattle.std.specs.Prelude.{◌≡◌, ◌≤◌, List, length, map, IfOk, OnOk, Option};
ghost use Rattle.type_table.specs.declared.row.Row.{Row};
ghost use Rattle.type_table.specs.TypeOf as type;
ghost use Rattle.type_table.specs.Rows.{Keeps};
ghost use Rattle.lar_tree.specs.declared.name.Path.{Path};
ghost use Rattle.lar_rules.specs.Declared.{Struct};
ghost use Rattle.lar_rules.specs.Fault.{least};
ghost use Rattle.lar_rules.specs.Judged.{Env};
ghost use Rattle.lar_rules.specs.Written.{Given};
ghost use Rattle.lar_rules.specs.Exprs.{Init, made_typed};
ghost use Rattle.lar_rules.specs.Exprs as rules;
ghost use Rattle.lar_judge.specs.Here.{IsEnv};
ghost use Rattle.lar_judge.specs.Known.{type_if, typed_in, IfWithin, TypedWithin, Knows};
ghost use Rattle.lar_judge.specs.Lists.{all_in, AllWithin, JudgedWithin};
ghost use Rattle.lar_judge.specs.Making.{MadeIs, MadeWithin, InitsAre, new_rest, names, alike};

use crate::assertion::unless_asserting;
use crate::setting::set_fields;
use crate::{Here, Judged};
use lar_source::Span;
use lar_told::First;
use lar_tree::Name;
use lar_typed::TypedExpr;
use sqlite_items::Items;
use std::alloc::{AllocError, Global};
use type_table::{Row, Types};

/// What is known of a struct that `new` makes. Each type is the number of a row, where it is known.
#[derive(Drop)]
pub struct Made<'a> {
    /// The struct's place among all structs.
    pub number: usize,
    /// The list of the arguments for its generics.
    pub generics: Option<usize>,
    /// The types of its fields, with the generics of `new` in place of its own.
    pub wanted: Vec<Option<usize>>,
    /// The names of its fields.
    pub names: Vec<&'a Name>,
}

/// How many of the first names are the same in both lists.
fn same_names(fields: &[&Name], set: &[&Name]) -> usize
    ensures is { result ≡ alike (names fields.now) (names set.now) }
    ensures few { result ≤ length fields.now }
{
    let mut same = 0;
    while same < fields.len() && same < set.len() {
        let field = fields[same];
        let name = set[same];
        if field.text.as_str() == name.text.as_str() {
            same += 1;
        } else {
            return same;
        }
    }
    same
}

/// Where names stand.
fn places(alloc: Global, set: &[&Name]) -> Result<Vec<Span>, AllocError>
    ensures { IfOk result (λ r. r.items ≡ map (λ n. n.now.span) set.now) }
{
    set.iter().map(|name| name.span).collect(alloc)
}

/// The struct of these fields, where its generics and each field are known.
fn made_expr(
    types: &mut Types,
    number: usize,
    generics: Option<usize>,
    fields: Option<Items<TypedExpr>>,
) -> Result<Option<TypedExpr>, AllocError>
    requires generics { IfWithin types.old generics }
    requires fields { AllWithin types.old fields }
    ensures kept { Keeps types.old types.new }
    ensures within { IfOk result (λ r. TypedWithin types.new r) }
    ensures is { IfOk result (λ r. typed_in types.new r ≡ made_typed number (type_if types.old generics) (all_in types.old fields)) }
{
    match generics {
        None => Ok(None),
        Some(generics) => match fields {
            None => Ok(None),
            Some(fields) => {
                let of = types.intern(Row::Struct(number, generics))?;
                Ok(Some(TypedExpr::new(of, fields)))
            }
        },
    }
}

/// `new` whose fields are judged. `set` are the names that it sets, with a value for each.
pub fn new_struct(
    alloc: Global,
    types: &mut Types,
    first: &mut First,
    here: &Here<'_>,
    asserting: bool,
    at: Span,
    made: Option<Made<'_>>,
    set: &[&Name],
    values: Vec<Judged>,
) -> Result<Judged, AllocError>
    requires made { MadeWithin types.old made }
    requires values { JudgedWithin types.old values.items }
    ensures kept { Keeps types.old types.new }
    ensures known { IfOk result (λ r. (env : Env) (p : Path) (gs : List Given) (is : List Init) (x : Option Struct) → IsEnv here.now asserting env → MadeIs types.old env.site p gs made.entry x → InitsAre types.old set.now values.items is → Knows types.new r (rules.judged_new env at p gs is x)) }
    ensures told { (env : Env) (p : Path) (gs : List Given) (is : List Init) (x : Option Struct) → IsEnv here.now asserting env → MadeIs types.old env.site p gs made.entry x → InitsAre types.old set.now values.items is → OnOk result (first.new ≡ least first.old (new_rest env at p gs is x)) }
{
    match made {
        None => Ok(unless_asserting(alloc, first, here, asserting, at, None)),
        Some(made) => {
            let same = same_names(&made.names, set);
            let places = places(alloc, set)?;
            let fields = set_fields(
                alloc,
                types,
                first,
                here,
                at,
                &made.wanted,
                &places,
                same,
                values,
            )?;
            let typed = made_expr(types, made.number, made.generics, fields)?;
            Ok(unless_asserting(alloc, first, here, asserting, at, typed))
        }
    }
}
