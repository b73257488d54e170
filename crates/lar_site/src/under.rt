//! Types of a declaration where it is used: with the generics of the use in place of its own.
ghost use Rattle.std.specs.Prelude.{◌≡◌, map, IfOk};
ghost use Rattle.type_table.specs.Rows.{Keeps};
ghost use Rattle.lar_rules.specs.Judged as rules;
ghost use Rattle.lar_written.specs.Standing.{AllInside};
ghost use Rattle.lar_judge.specs.Known.{type_if, IfWithin};
ghost use Rattle.lar_judge.specs.Wanted.{types_if, AllIfWithin};
ghost use Rattle.lar_site.specs.Under.{members_under};

use lar_written::Member;
use std::alloc::{AllocError, Global};
use type_table::Types;

/// A type with these generics in place of its own, where both are known.
pub(crate) fn under(
    types: &mut Types,
    generics: Option<usize>,
    of: Option<usize>,
) -> Result<Option<usize>, AllocError>
    requires generics { IfWithin types.old generics }
    requires of { IfWithin types.old of }
    ensures kept { Keeps types.old types.new }
    ensures within { IfOk result (λ n. IfWithin types.new n) }
    ensures is { IfOk result (λ n. type_if types.new n ≡ rules.under (type_if types.old generics) (type_if types.old of)) }
{
    match generics {
        None => Ok(None),
        Some(generics) => match of {
            None => Ok(None),
            Some(of) => Ok(Some(types.substitute(of, generics)?)),
        },
    }
}

/// The types of members with these generics in place of their own.
pub(crate) fn all_under(
    alloc: Global,
    types: &mut Types,
    generics: Option<usize>,
    members: &[Member],
) -> Result<Vec<Option<usize>>, AllocError>
    requires generics { IfWithin types.old generics }
    requires members { AllInside types.old (map (λ m. m.of) members.now) }
    ensures kept { Keeps types.old types.new }
    ensures within { IfOk result (λ out. AllIfWithin types.new out.items) }
    ensures are { IfOk result (λ out. types_if types.new out.items ≡ members_under types.old (type_if types.old generics) members.now) }
{
    let mut out = Vec::new(alloc);
    for member in members {
        out.push(under(types, generics, member.of)?)?;
    }
    Ok(out)
}
