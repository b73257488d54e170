//! Rows for types whose parts may have a fault.
//!
//! A type is the number of a row, where there is no fault in it. What is made of a part that has a fault has none.
ghost use Rattle.std.specs.Prelude.{◌≡◌, ℕ, List, map, IfOk, option_map};
ghost use Rattle.type_table.specs.TypeOf.{tuple, struct};
ghost use Rattle.type_table.specs.Rows.{Keeps};
ghost use Rattle.lar_rules.specs.Written.{then_type};
ghost use Rattle.lar_written.specs.Standing.{number_type, Inside, AllInside, StandsIf, list_if};

use std::alloc::AllocError;
use type_table::{Row, Types};

/// The list of a first member and the others.
pub fn longer(
    types: &mut Types,
    first: Option<usize>,
    others: Option<usize>,
) -> Result<Option<usize>, AllocError>
    requires first { Inside types.old first }
    requires others { Inside types.old others }
    ensures kept { Keeps types.old types.new }
    ensures of { IfOk result (λ n. StandsIf types.new n (then_type (number_type types.old first) (number_type types.old others))) }
{
    match first {
        Some(first) => match others {
            Some(others) => Ok(Some(types.intern(Row::More(first, others))?)),
            None => Ok(None),
        },
        None => Ok(None),
    }
}

/// The list of these members.
pub fn listed(types: &mut Types, members: &[Option<usize>]) -> Result<Option<usize>, AllocError>
    requires { AllInside types.old members.now }
    ensures kept { Keeps types.old types.new }
    ensures of { IfOk result (λ n. StandsIf types.new n (list_if (map (number_type types.old) members.now))) }
{
    let mut list = Some(types.intern(Row::End)?);
    let mut at = members.len();
    while at > 0 {
        at -= 1;
        list = longer(types, members[at], list)?;
    }
    Ok(list)
}

/// The tuple of these parts.
pub fn tupled(types: &mut Types, parts: Option<usize>) -> Result<Option<usize>, AllocError>
    requires { Inside types.old parts }
    ensures kept { Keeps types.old types.new }
    ensures of { IfOk result (λ n. StandsIf types.new n (option_map tuple (number_type types.old parts))) }
{
    match parts {
        Some(parts) => Ok(Some(types.intern(Row::Tuple(parts))?)),
        None => Ok(None),
    }
}

/// The struct of this number with these generics.
pub fn struct_of(
    types: &mut Types,
    number: usize,
    generics: Option<usize>,
) -> Result<Option<usize>, AllocError>
    requires { Inside types.old generics }
    ensures kept { Keeps types.old types.new }
    ensures of { IfOk result (λ n. StandsIf types.new n (option_map (struct number) (number_type types.old generics))) }
{
    match generics {
        Some(generics) => Ok(Some(types.intern(Row::Struct(number, generics))?)),
        None => Ok(None),
    }
}
