//! Signatures of functions.
ghost use Rattle.std.specs.Prelude.{◌≡◌, ℕ, [], ◌++◌, map, IfOk, OnOk};
ghost use Rattle.type_table.specs.Rows.{Keeps};
ghost use Rattle.lar_rules.specs.Fault.{least};
ghost use Rattle.lar_rules.specs.Twice.{repeated};
ghost use Rattle.lar_names.specs.Items.{function_item};
ghost use Rattle.lar_names.specs.NamesView.{names_view, scope_lists};
ghost use Rattle.lar_names.specs.Numbered.{function_at, functions};
ghost use Rattle.lar_written.specs.Members.{fields_in};
ghost use Rattle.lar_written.specs.Names as written;
ghost use Rattle.lar_written.specs.Sites.{generics_view};
ghost use Rattle.lar_signatures.specs.EachStands.{EachStands};
ghost use Rattle.lar_signatures.specs.Noted.{faults_of_all, faults_of_head};
ghost use Rattle.lar_signatures.specs.Signatures.{FunctionStands};

use crate::declared::{generic_names, sorts_of};
use lar_names::{FunctionItem, Names};
use lar_told::First;
use lar_tree::{Commas, Field, Name};
use lar_written::{
    Generics, Member, Site, all_members, generics_of_function, member_names, note_repeated, outcome,
};
use std::alloc::{AllocError, Global};
use type_table::{Sort, Types};

/// What is known of a function where it is called, and where its body stands: its generics, and which of them are types; its
/// parameters and its result, each with its type where that is known. The types may have the function's own generics.
#[derive(Drop)]
pub struct FunctionSignature<'a> {
    pub generics: Generics<'a>,
    pub sorts: Vec<Sort>,
    pub params: Vec<Member<'a>>,
    pub outcome: Option<usize>,
}

/// The names of generics and then those of parameters.
fn all_names<'a>(
    alloc: Global,
    generics: &Generics<'a>,
    params: &'a Option<Commas<Field>>,
) -> Result<Vec<&'a Name>, AllocError>
    ensures { IfOk result (λ ns. written.names ns.items ≡ map (λ g. g.name) (generics_view generics.now) ++ map (λ p. p.0) (fields_in params.now)) }
{
    let mut all = generic_names(alloc, generics)?;
    let further = member_names(alloc, params)?;
    for name in &further {
        all.push(*name)?;
    }
    Ok(all)
}

/// Notes names that two generics or parameters have.
fn note_names(
    alloc: Global,
    first: &mut First,
    item: &FunctionItem,
    generics: &Generics,
) -> Result<(), AllocError>
    ensures { OnOk result (first.new ≡ least first.old (repeated item.now.file [] (map (λ g. g.name) (generics_view generics.now) ++ map (λ p. p.0) (fields_in ((item.now.it).now).params)))) }
{
    let all = all_names(alloc, generics, &item.it.params)?;
    note_repeated(alloc, first, item.file, &all)
}

/// Reads a function; the faults in its names and types are noted.
fn read_function<'a>(
    alloc: Global,
    types: &mut Types,
    first: &mut First,
    names: &Names<'a>,
    item: &FunctionItem<'a>,
) -> Result<FunctionSignature<'a>, AllocError>
    ensures kept { Keeps types.old types.new }
    ensures of { IfOk result (λ f. (n : ℕ) → FunctionStands types.new (names_view names.now) f (function_at n (function_item (scope_lists names.now) item.now))) }
    ensures told { OnOk result ((n : ℕ) → first.new ≡ least first.old (faults_of_head (names_view names.now) n (function_item (scope_lists names.now) item.now))) }
{
    let generics = generics_of_function(alloc, item.it)?;
    note_names(alloc, first, item, &generics)?;
    let site = Site {
        names,
        file: item.file,
        scope: item.scope,
        generics: &generics,
    };
    let params = all_members(alloc, types, first, &site, &item.it.params)?;
    let outcome = outcome(alloc, types, first, &site, &item.it.output)?;
    let sorts = sorts_of(alloc, &generics)?;
    Ok(FunctionSignature {
        generics,
        sorts,
        params,
        outcome,
    })
}

/// The signatures of all functions by number; the faults in their names and types are noted.
pub(crate) fn read_functions<'a>(
    alloc: Global,
    types: &mut Types,
    first: &mut First,
    names: &Names<'a>,
) -> Result<Vec<FunctionSignature<'a>>, AllocError>
    ensures kept { Keeps types.old types.new }
    ensures of { IfOk result (λ out. EachStands (λ n f p. FunctionStands types.new (names_view names.now) f (function_at n p)) 0 out.items (functions (names_view names.now))) }
    ensures told { OnOk result (first.new ≡ least first.old (faults_of_all (faults_of_head (names_view names.now)) 0 (functions (names_view names.now)))) }
{
    let mut out = Vec::new(alloc);
    for item in names.functions() {
        out.push(read_function(alloc, types, first, names, item)?)?;
    }
    Ok(out)
}
