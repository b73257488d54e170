//! Where a body may end without a value.
ghost use Rattle.std.specs.Prelude.{◌≡◌, ◌||◌, [], ◌∷◌, List, if◌then◌else◌, IfOk, OnOk};
ghost use Rattle.type_table.specs.Rows.{Keeps};
ghost use Rattle.lar_source.specs.declared.code.Code.TheVariants.{MayEndWithoutValue};
ghost use Rattle.lar_tree.specs.StmtView.{block_view};
ghost use Rattle.lar_rules.specs.Fault.{fault, least};
ghost use Rattle.lar_rules.specs.Bodies as rules;
ghost use Rattle.lar_rules.specs.Functions as functions;
ghost use Rattle.lar_judge.specs.Known.{type_if, IfWithin};

use lar_judge::is_same;
use lar_source::Code;
use lar_stmts::{block_returns, unit_type};
use lar_told::First;
use lar_tree::{Block, Name};
use std::alloc::{AllocError, Global};
use type_table::Types;

/// Whether a result is `()`, or not known.
fn is_unit(types: &mut Types, outcome: Option<usize>) -> Result<bool, AllocError>
    requires { IfWithin types.old outcome }
    ensures kept { Keeps types.old types.new }
    ensures is { IfOk result (λ b. b ≡ functions.is_unit (type_if types.old outcome)) }
{
    match outcome {
        None => Ok(true),
        Some(outcome) => {
            let unit = unit_type(types)?;
            Ok(is_same(types, outcome, unit))
        }
    }
}

/// Notes a body that may end without a value, where the result is another than `()`.
pub(crate) fn note_ending(
    alloc: Global,
    types: &mut Types,
    first: &mut First,
    file: usize,
    outcome: Option<usize>,
    name: &Name,
    block: &Block,
) -> Result<(), AllocError>
    requires { IfWithin types.old outcome }
    ensures kept { Keeps types.old types.new }
    ensures told { OnOk result (first.new ≡ least first.old (if functions.is_unit (type_if types.old outcome) || rules.block_returns (block_view block.now) then [] else fault file (functions.block_close (block_view block.now)) MayEndWithoutValue (name.now.text ∷ []) ∷ [])) }
{
    let unit = is_unit(types, outcome)?;
    if unit {
        return Ok(());
    }
    if block_returns(block) {
        return Ok(());
    }
    first.note_name(
        alloc,
        file,
        block.close,
        Code::MayEndWithoutValue,
        &name.text,
    )
}
