//! Functions.
ghost use Rattle.std.specs.Prelude.{◌≡◌, option_map, IfOk};
ghost use Rattle.lar_tree.specs.ItemView.{fn_view};
ghost use Rattle.lar_typed.specs.StmtView.{stmts_view};
ghost use Rattle.lar_typed.specs.TreeView.{function_view};
ghost use Rattle.lar_rules.specs.Printed.{joined};
ghost use Rattle.lar_names.specs.NamesView.{scope_view};
ghost use Rattle.lar_assembled.specs.Functions.{all_there, function_with, function_made};

use crate::parts::{each_there, has_word, param_count};
use lar_names::{FunctionItem, Names};
use lar_tree::{AttributeWord, Fn, Text};
use lar_typed::{TypedFunction, TypedStmt};
use sqlite_items::Items;
use std::alloc::{AllocError, Global};
use type_table::Sort;

/// The function of these parts.
fn made(
    alloc: Global,
    path: Text,
    it: &Fn,
    sorts: &[Sort],
    locals: Items<usize>,
    outcome: usize,
    body: Items<TypedStmt>,
) -> Result<TypedFunction, AllocError>
    ensures { IfOk result (λ f. function_view f ≡ function_made path (fn_view it.now) sorts.now locals outcome (stmts_view body)) }
{
    Ok(TypedFunction {
        module: path,
        name: Text::copied(alloc, it.name.text.as_str())?,
        generics: Items::from_slice(alloc, sorts)?,
        params: param_count(it),
        locals,
        outcome,
        body,
        inlined: has_word(AttributeWord::Inline, it.attributes.as_slice()),
        exported: has_word(AttributeWord::Export, it.attributes.as_slice()),
        at: it.name.span,
    })
}

/// The function with its types, where those of all its locals, of its result and in its body are known; `sorts` says
/// which of its generics are types.
pub fn typed_function(
    alloc: Global,
    names: &Names,
    item: &FunctionItem,
    sorts: &[Sort],
    locals: &[Option<usize>],
    outcome: Option<usize>,
    body: Option<Items<TypedStmt>>,
) -> Result<Option<TypedFunction>, AllocError>
    ensures { IfOk result (λ f. option_map function_view f ≡ function_with (joined (scope_view names.now item.now.scope)) (fn_view (item.now.it).now) sorts.now (all_there locals.now) outcome (option_map stmts_view body)) }
{
    let locals = match each_there(alloc, locals)? {
        None => return Ok(None),
        Some(locals) => locals,
    };
    let outcome = match outcome {
        None => return Ok(None),
        Some(outcome) => outcome,
    };
    let body = match body {
        None => return Ok(None),
        Some(body) => body,
    };
    let path = names.module_path(alloc, item.scope)?;
    Ok(Some(made(alloc, path, item.it, sorts, locals, outcome, body)?))
}
