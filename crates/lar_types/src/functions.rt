//! The functions with their types.
ghost use Rattle.std.specs.Prelude.{◌≡◌, ℕ, ◌++◌, map, option_map, IfOk, OnOk};
ghost use Rattle.type_table.specs.Rows.{Keeps};
ghost use Rattle.lar_typed.specs.TreeView.{function_view};
ghost use Rattle.lar_rules.specs.Fault.{least};
ghost use Rattle.lar_rules.specs.Faults.{none_yet};
ghost use Rattle.lar_rules.specs.Checked as rules;
ghost use Rattle.lar_rules.specs.Functions.{body_done};
ghost use Rattle.lar_bodies.specs.Body.{BodyIs};
ghost use Rattle.lar_sound.specs.InOrder.{functions_from};
ghost use Rattle.lar_names.specs.Items.{function_item};
ghost use Rattle.lar_names.specs.NamesView.{names_view, scope_lists};
ghost use Rattle.lar_names.specs.Numbered.{function_at};
ghost use Rattle.fault_order.specs.Order.{body_faults, body_part, parts_from};
ghost use Rattle.lar_signatures.specs.Signatures.{SignaturesStand, FunctionStands};
ghost use Rattle.lar_assembled.specs.Functions.{FunctionStandsIf};
ghost use Rattle.lar_assembled.specs.Programs.{FunctionsStand};
ghost use Rattle.lar_types.specs.Bodies.{as_list};

use lar_assembled::typed_function;
use lar_bodies::{TypedBody, body};
use lar_names::{FunctionItem, Names};
use lar_signatures::{FunctionSignature, Signatures};
use lar_site::{BodySite, generic_texts};
use lar_told::First;
use lar_typed::TypedFunction;
use lar_written::Site;
use sqlite_items::Items;
use std::alloc::{AllocError, Global};
use type_table::Types;

/// What is known of the body of a function; its faults are noted.
fn checked_body(
    alloc: Global,
    types: &mut Types,
    first: &mut First,
    names: &Names,
    signatures: &Signatures,
    item: &FunctionItem,
    signature: &FunctionSignature,
) -> Result<TypedBody, AllocError>
    requires stand { SignaturesStand types.old (names_view names.now) signatures.now }
    requires signed { (n : ℕ) → FunctionStands types.old (names_view names.now) signature.now (function_at n (function_item (scope_lists names.now) item.now)) }
    ensures kept { Keeps types.old types.new }
    ensures known { IfOk result (λ r. (n : ℕ) → BodyIs types.new r (body_done (names_view names.now) (function_at n (function_item (scope_lists names.now) item.now)))) }
    ensures told { OnOk result ((n : ℕ) → first.new ≡ least first.old (body_faults (names_view names.now) (function_at n (function_item (scope_lists names.now) item.now)))) }
{
    let texts = generic_texts(alloc, &signature.generics)?;
    let site = BodySite {
        written: Site {
            names,
            file: item.file,
            scope: item.scope,
            generics: &signature.generics,
        },
        signatures,
    };
    let here = site.here(&texts);
    body(
        alloc,
        types,
        first,
        &here,
        &site,
        &signature.params,
        signature.outcome,
        item.it,
    )
}

/// A function with its types, where they are known; the faults of its body are noted.
fn checked_function(
    alloc: Global,
    types: &mut Types,
    first: &mut First,
    names: &Names,
    signatures: &Signatures,
    item: &FunctionItem,
    signature: &FunctionSignature,
) -> Result<Option<TypedFunction>, AllocError>
    requires stand { SignaturesStand types.old (names_view names.now) signatures.now }
    requires signed { (n : ℕ) → FunctionStands types.old (names_view names.now) signature.now (function_at n (function_item (scope_lists names.now) item.now)) }
    ensures kept { Keeps types.old types.new }
    ensures of { IfOk result (λ f. (n : ℕ) → FunctionStandsIf types.new (option_map function_view f) (rules.typed_function (names_view names.now) (function_at n (function_item (scope_lists names.now) item.now)))) }
    ensures told { OnOk result ((n : ℕ) → first.new ≡ least first.old (body_faults (names_view names.now) (function_at n (function_item (scope_lists names.now) item.now)))) }
{
    lar_assembled::laws::functions();
    let found = checked_body(alloc, types, first, names, signatures, item, signature)?;
    let TypedBody { stmts, locals } = found;
    typed_function(
        alloc,
        names,
        item,
        &signature.sorts,
        &locals,
        signature.outcome,
        stmts,
    )
}

/// Puts a function behind those that are there, where there is one.
fn put_known(
    functions: &mut Vec<TypedFunction>,
    made: Option<TypedFunction>,
) -> Result<(), AllocError>
    ensures { OnOk result (functions.new.items ≡ functions.old.items ++ as_list made) }
{
    match made {
        None => Ok(()),
        Some(function) => {
            functions.push(function)?;
            Ok(())
        }
    }
}

/// All functions with their types, as far as these are known; the faults of all bodies are noted.
pub(crate) fn checked_functions(
    alloc: Global,
    types: &mut Types,
    first: &mut First,
    names: &Names,
    signatures: &Signatures,
) -> Result<Items<TypedFunction>, AllocError>
    requires { SignaturesStand types.old (names_view names.now) signatures.now }
    ensures kept { Keeps types.old types.new }
    ensures of { IfOk result (λ fs. FunctionsStand types.new fs (map (rules.typed_function (names_view names.now)) (functions_from none_yet (names_view names.now)))) }
    ensures told { OnOk result (first.new ≡ least first.old (parts_from body_part (names_view names.now) none_yet (names_view names.now))) }
{
    lar_signatures::laws::grown();
    lar_typed::laws::kept();
    let mut out = Vec::new(alloc);
    let items = names.functions();
    for number in 0..items.len() {
        let item = &items[number];
        let signature = &signatures.functions[number];
        let made = checked_function(alloc, types, first, names, signatures, item, signature)?;
        put_known(&mut out, made)?;
    }
    Ok(Items::from_vec(out))
}
