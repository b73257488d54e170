//! The lines of units.
ghost use Rattle.std.specs.Prelude.{◌≡◌, ◌++◌, map, codes, OnOk, IfOk};
ghost use Rattle.std.specs.Fmt.{decimal};
ghost use Rattle.units_text.specs.Lines.{unit_view, unit_line, unit_lines};

use itoa::Buffer;
use mono_items::UnitPlan;
use std::alloc::{AllocError, Global};

fn push_field(text: &mut Vec<u8>, word: &str, number: u64) -> Result<(), AllocError>
    ensures { OnOk result (text.new.items ≡ text.old.items ++ (word.now ++ decimal number)) }
{
    text.extend_from_slice(word.as_bytes())?;
    let mut buffer = Buffer::new();
    text.extend_from_slice(buffer.format(number).as_bytes())?;
    Ok(())
}

fn push_unit(text: &mut Vec<u8>, plan: &UnitPlan) -> Result<(), AllocError>
    ensures { OnOk result (text.new.items ≡ text.old.items ++ unit_line (unit_view plan.now)) }
{
    text.extend_from_slice(plan.name.as_str().as_bytes())?;
    push_field(text, " size ", plan.size)?;
    push_field(text, " items ", plan.home.len() as u64)?;
    push_field(text, " copies ", plan.copies.len() as u64)?;
    text.push(b'\n')?;
    Ok(())
}

/// The lines of these units, in order.
pub fn units_text(alloc: Global, plans: &[UnitPlan]) -> Result<Vec<u8>, AllocError>
    ensures { IfOk result (λ text. text.items ≡ unit_lines (map unit_view plans.now)) }
{
    let mut text = Vec::new(alloc);
    for plan in plans {
        push_unit(&mut text, plan)?;
    }
    Ok(text)
}
