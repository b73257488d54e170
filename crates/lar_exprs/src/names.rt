//! The names that `new` sets.
ghost use Rattle.std.specs.Prelude.{◌≡◌, length, map, option_map, IfOk};
ghost use Rattle.lar_tree.specs.PlainLists.{values};
ghost use Rattle.lar_tree.specs.ExprView.{inits_view, parts_view};
ghost use Rattle.lar_judge.specs.Making.{names};
ghost use Rattle.lar_exprs.specs.Lists.{set_names, parts_count};

use lar_tree::{Commas, Expr, Init, Name};
use std::alloc::{AllocError, Global};

fn list_names<'a>(alloc: Global, list: &'a Commas<Init>) -> Result<Vec<&'a Name>, AllocError>
    ensures { IfOk result (λ ns. names ns.items ≡ map (λ i. i.name) (values list.now)) }
{
    let mut out = Vec::new(alloc);
    out.push(&list.first.name)?;
    for more in list.more.as_slice() {
        out.push(&more.value.name)?;
    }
    Ok(out)
}

/// The names that `new` sets, in order.
pub fn init_names<'a>(
    alloc: Global,
    inits: &'a Option<Commas<Init>>,
) -> Result<Vec<&'a Name>, AllocError>
    ensures { IfOk result (λ ns. names ns.items ≡ set_names inits.now) }
{
    match inits {
        None => Ok(Vec::new(alloc)),
        Some(list) => list_names(alloc, list),
    }
}

/// How many arguments a call has.
pub fn count(args: &Option<Commas<Expr>>) -> usize
    ensures { result ≡ parts_count args.now }
{
    match args {
        None => 0,
        Some(list) => list.len(),
    }
}
