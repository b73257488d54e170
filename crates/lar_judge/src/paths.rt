//! Paths that stand for values.
ghost use Rattle.std.specs.Prelude.{◌≡◌, List, IfOk, OnOk};
ghost use Rattle.type_table.specs.declared.row.Row.{Row};
ghost use Rattle.type_table.specs.Rows.{Keeps};
ghost use Rattle.lar_rules.specs.Declared.{texts_of};
ghost use Rattle.lar_rules.specs.Fault.{least};
ghost use Rattle.lar_rules.specs.Exprs as rules;
ghost use Rattle.lar_judge.specs.Known.{Knows, type_if, typed_in, IfWithin, TypedWithin};
ghost use Rattle.lar_judge.specs.Locals.{local_in, locals_in, local_if, LocalWithin, LocalsWithin};
ghost use Rattle.lar_judge.specs.Envs.{plain_env, value_in, ValueWithin, path_judged};

use crate::operators::int_type;
use crate::{Here, Judged, Local, Locals, Site};
use lar_told::First;
use lar_tree::Path;
use lar_typed::TypedExpr;
use std::alloc::{AllocError, Global};
use type_table::Types;

/// Where an expression is judged.
#[derive(Drop)]
pub struct Env<'a, S> {
    pub here: Here<'a>,
    pub site: &'a S,
    pub locals: &'a Locals<'a>,
    /// Whether it stands in a `static_assert`.
    pub asserting: bool,
}

/// What a path means in an expression.
#[derive(Clone, Copy)]
enum Value<'a> {
    Local(Local<'a>),
    Generic(usize),
    Constant(usize),
    Nothing,
}

/// The local that a path of one name means.
fn local_meant<'a>(locals: &Locals<'a>, path: &Path) -> Option<Local<'a>>
    ensures within { (rows : List Row) → LocalsWithin rows locals.now.locals.items → LocalWithin rows result }
    ensures is { (rows : List Row) → local_if rows result ≡ rules.local_meant (texts_of path.now) (locals_in rows locals.now.locals.items) }
{
    if path.len() == 1 {
        return locals.find(&path.first.text);
    }
    None
}

fn value_named<'a, S: Site>(env: &Env<'a, S>, path: &Path) -> Value<'a>
    ensures within { (rows : List Row) → LocalsWithin rows env.now.locals.now.locals.items → ValueWithin rows result }
    ensures is { (rows : List Row) → value_in rows result ≡ rules.value_named (plain_env (S.site env.now.site.now) rows env.now.locals.now.locals.items env.now.asserting) path.now }
{
    if let Some(local) = local_meant(env.locals, path) {
        return Value::Local(local);
    }
    if let Some(place) = env.site.number_generic(path) {
        return Value::Generic(place);
    }
    match env.site.const_meant(path) {
        Some(number) => Value::Constant(number),
        None => Value::Nothing,
    }
}

/// A local that is named in an expression.
fn local_typed(local: Local<'_>) -> Option<TypedExpr>
    ensures within { (rows : List Row) → IfWithin rows local.entry.of → TypedWithin rows result }
    ensures is { (rows : List Row) → typed_in rows result ≡ rules.local_typed (local_in rows local.entry) (type_if rows local.entry.of) }
{
    match local.of {
        None => None,
        Some(of) => Some(TypedExpr::local(of, local.number)),
    }
}

/// A path that stands for a value. A local has no place in a `static_assert`.
pub fn path<S: Site>(
    alloc: Global,
    types: &mut Types,
    first: &mut First,
    env: &Env<'_, S>,
    path: &Path,
) -> Result<Judged, AllocError>
    requires { LocalsWithin types.old env.now.locals.now.locals.items }
    ensures kept { Keeps types.old types.new }
    ensures known { IfOk result (λ r. Knows types.new r (path_judged (S.site env.now.site.now) types.old env.now.locals.now.locals.items env.now.asserting path.now)) }
    ensures told { OnOk result (first.new ≡ least first.old (path_judged (S.site env.now.site.now) types.old env.now.locals.now.locals.items env.now.asserting path.now).faults) }
{
    let at = path.first.span;
    match value_named(env, path) {
        Value::Nothing => {
            env.site.note_unknown(alloc, first, path)?;
            Ok(Judged { at, typed: None })
        }
        Value::Local(local) => {
            if env.asserting {
                env.site.note_unknown(alloc, first, path)?;
                return Ok(Judged { at, typed: None });
            }
            Ok(Judged {
                at,
                typed: local_typed(local),
            })
        }
        Value::Generic(place) => {
            let int = int_type(types)?;
            Ok(Judged {
                at,
                typed: Some(TypedExpr::generic(int, place)),
            })
        }
        Value::Constant(number) => {
            let int = int_type(types)?;
            Ok(Judged {
                at,
                typed: Some(TypedExpr::constant(int, number)),
            })
        }
    }
}
