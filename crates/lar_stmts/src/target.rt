//! The local that is assigned to, and the steps to a part of it.
ghost use Rattle.std.specs.Prelude.{◌≡◌, ◌<◌, Some, List, length, IfOk};
ghost use Rattle.type_table.specs.Rows.{type_at};
ghost use Rattle.type_table.specs.declared.row.Row.{Row};
ghost use Rattle.lar_rules.specs.Bodies as rules;
ghost use Rattle.lar_judge.specs.Known.{expr_in, TypedWithin};
ghost use Rattle.lar_stmts.specs.Targets.{target_in, TargetWithin};

use lar_typed::{Node, Step, TypedExpr};
use sqlite_items::Items;
use std::alloc::{AllocError, Global};

/// A local by its number, and the steps to a part of it.
#[derive(Drop)]
pub struct Target {
    pub local: usize,
    pub steps: Items<Step>,
}

/// One step further.
fn one_further(target: Option<Target>, part: usize, of: usize) -> Result<Option<Target>, AllocError>
    ensures within { IfOk result (λ r. (rows : List Row) → of < length rows → TargetWithin rows target → TargetWithin rows r) }
    ensures is { IfOk result (λ r. (rows : List Row) → target_in rows r ≡ rules.one_further part (type_at rows of) (target_in rows target)) }
{
    match target {
        None => Ok(None),
        Some(target) => {
            let Target { local, mut steps } = target;
            steps.push(Step { part, of })?;
            Ok(Some(Target { local, steps }))
        }
    }
}

/// The place that a typed expression is, where it is one.
pub fn target_of(e: &TypedExpr, alloc: Global) -> Result<Option<Target>, AllocError>
    ensures within { IfOk result (λ r. (rows : List Row) → TypedWithin rows (Some e.now) → TargetWithin rows r) }
    ensures is { IfOk result (λ r. (rows : List Row) → target_in rows r ≡ rules.target_of (expr_in rows e.now)) }
{
    match &e.node {
        Node::Local(local) => Ok(Some(Target {
            local: *local,
            steps: Items::new(alloc),
        })),
        Node::Field(inner, part) => {
            let target = target_of(inner.get(), alloc)?;
            one_further(target, *part, e.of)
        }
        Node::Int(_) => Ok(None),
        Node::Bool(_) => Ok(None),
        Node::Const(_) => Ok(None),
        Node::Generic(_) => Ok(None),
        Node::Tuple(_) => Ok(None),
        Node::New(_) => Ok(None),
        Node::Unary(_, _) => Ok(None),
        Node::Binary(_, _, _) => Ok(None),
        Node::Call(_) => Ok(None),
    }
}
