//! What stands behind a dot: the part of a tuple, or the field of a struct.
ghost use Rattle.std.specs.Prelude.{◌≡◌, ◌<◌, List, length, map, nat_abs, IfOk};
ghost use Rattle.type_table.specs.declared.row.Row.{Row};
ghost use Rattle.type_table.specs.Rows.{Keeps, type_at};
ghost use Rattle.lar_source.specs.declared.file.Span.{Span};
ghost use Rattle.lar_tree.specs.declared.expr.Selector.TheVariants as selector;
ghost use Rattle.lar_rules.specs.Declared.{Declared};
ghost use Rattle.lar_rules.specs.Signatures.{struct_numbered};
ghost use Rattle.lar_rules.specs.Exprs as rules;
ghost use Rattle.lar_names.specs.NamesView.{names_view};
ghost use Rattle.lar_written.specs.Members.{member_view};
ghost use Rattle.lar_written.specs.Standing.{AllInside};
ghost use Rattle.lar_judge.specs.Selected.{PartWithin, part_in};
ghost use Rattle.lar_signatures.specs.Signatures.{SignaturesStand};

use crate::BodySite;
use crate::under::under;
use lar_judge::Part;
use lar_tree::{Selector, Text};
use lar_written::Member;
use std::alloc::AllocError;
use type_table::{Row, Types};

/// The first field of this name, by its place. The type is that of the declaration.
fn field_named(fields: &[Member], name: &Text) -> Option<Part>
    ensures within { (rows : List Row) → AllInside rows (map (λ m. m.of) fields.now) → PartWithin rows result }
    ensures is { (rows : List Row) → part_in rows result ≡ rules.member_named name.now (map (member_view rows) fields.now) }
{
    for (place, field) in fields.iter().enumerate() {
        if field.name.text == *name {
            return Some(Part {
                place,
                of: field.of,
            });
        }
    }
    None
}

/// The place that a number in a source names; no number there is below zero.
fn place_of(number: i64) -> usize
    ensures { result ≡ nat_abs number }
{
    number.unsigned_abs() as usize
}

/// A part of a tuple of these parts.
fn tuple_part(types: &Types, parts: usize, place: usize) -> Option<Part>
    requires { parts < length types.now }
    ensures within { PartWithin types.now result }
    ensures is { part_in types.now result ≡ rules.tuple_part (type_at types.now parts) place }
{
    match types.argument(parts, place) {
        None => None,
        Some(of) => Some(Part {
            place,
            of: Some(of),
        }),
    }
}

/// The part of a type with this number.
fn part_numbered(types: &Types, of: usize, number: i64) -> Option<Part>
    requires { of < length types.now }
    ensures within { PartWithin types.now result }
    ensures is { (all : List Declared) (at : Span) → part_in types.now result ≡ rules.part_selected all (type_at types.now of) (selector.Number number at) }
{
    match types.row(of) {
        Row::Tuple(parts) => tuple_part(types, parts, place_of(number)),
        _ => None,
    }
}

impl<'a> BodySite<'a> {
    /// A field of a struct with these generics.
    fn field_part(
        &self,
        types: &mut Types,
        number: usize,
        generics: usize,
        name: &Text,
    ) -> Result<Option<Part>, AllocError>
        requires generics { generics < length types.old }
        requires stands { SignaturesStand types.old (names_view self.now.written.names.now) self.now.signatures.now }
        ensures kept { Keeps types.old types.new }
        ensures within { IfOk result (λ p. PartWithin types.new p) }
        ensures is { IfOk result (λ p. part_in types.new p ≡ rules.field_part (names_view self.now.written.names.now) (type_at types.old generics) name.now (struct_numbered (names_view self.now.written.names.now) number)) }
    {
        let signature = match self.signatures.structs.get(number) {
            None => return Ok(None),
            Some(signature) => signature,
        };
        match field_named(&signature.fields, name) {
            None => Ok(None),
            Some(part) => {
                let of = under(types, Some(generics), part.of)?;
                Ok(Some(Part {
                    place: part.place,
                    of,
                }))
            }
        }
    }

    /// The part of a type that a selector names.
    pub(crate) fn part_selected(
        &self,
        types: &mut Types,
        of: usize,
        selector: &Selector,
    ) -> Result<Option<Part>, AllocError>
        requires of { of < length types.old }
        requires stands { SignaturesStand types.old (names_view self.now.written.names.now) self.now.signatures.now }
        ensures kept { Keeps types.old types.new }
        ensures within { IfOk result (λ p. PartWithin types.new p) }
        ensures is { IfOk result (λ p. part_in types.new p ≡ rules.part_selected (names_view self.now.written.names.now) (type_at types.old of) selector.now) }
    {
        match selector {
            Selector::Name(name) => match types.row(of) {
                Row::Struct(number, generics) => {
                    self.field_part(types, number, generics, &name.text)
                }
                _ => Ok(None),
            },
            Selector::Number(number, _) => Ok(part_numbered(types, of, *number)),
        }
    }
}
