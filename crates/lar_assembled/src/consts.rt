//! Constants.
ghost use Rattle.std.specs.Prelude.{◌≡◌, map, IfOk};
ghost use Rattle.lar_rules.specs.Checked as rules;
ghost use Rattle.lar_rules.specs.Written.{signed};
ghost use Rattle.lar_names.specs.Items.{const_item};
ghost use Rattle.lar_names.specs.NamesView.{names_view, scope_lists};
ghost use Rattle.lar_names.specs.Numbered.{consts};

use lar_names::{ConstItem, Names};
use lar_tree::{SignedNumber, Text};
use lar_typed::TypedConst;
use sqlite_items::Items;
use std::alloc::{AllocError, Global};

/// A number with its sign. One that a minus cannot turn round, which no source has, is answered as want of memory.
fn signed_value(number: SignedNumber) -> Result<i64, AllocError>
    ensures { IfOk result (λ v. v ≡ signed number number.minus) }
{
    match number.minus {
        None => Ok(number.value),
        Some(_) => match number.value.checked_neg() {
            Some(value) => Ok(value),
            None => Err(AllocError),
        },
    }
}

fn typed_const(alloc: Global, names: &Names, item: &ConstItem) -> Result<TypedConst, AllocError>
    ensures { IfOk result (λ c. c ≡ rules.typed_const (const_item (scope_lists names.now) item.now).0 (const_item (scope_lists names.now) item.now).1) }
{
    let module = names.module_path(alloc, item.scope)?;
    let name = Text::copied(alloc, item.it.name.text.as_str())?;
    let value = signed_value(item.it.value)?;
    Ok(TypedConst {
        module,
        name,
        value,
    })
}

/// All constants, in reading order.
pub fn typed_consts(alloc: Global, names: &Names) -> Result<Items<TypedConst>, AllocError>
    ensures { IfOk result (λ out. out ≡ map (λ p. rules.typed_const p.0 p.1) (consts (names_view names.now))) }
{
    let mut out = Vec::new(alloc);
    for item in names.consts() {
        out.push(typed_const(alloc, names, item)?)?;
    }
    Ok(Items::from_vec(out))
}
