//! Reading an object, field by field from left to right. The first field that breaks its rule is the fault; the rule that calls have
//! callees is looked at once all of the bytes are read, since the count of externals stands behind the code.
//!
//! A symbol is looked up in a set of those before it, which borrows from the file, so reading takes time close to linear in the
//! bytes. No room is taken by a count that the file promises.

ghost use Rattle.std.specs.Prelude.{◌≡◌, ◌+◌, ◌<◌, ◌^◌, Ok, IfOk, length};
ghost use Rattle.std.specs.List.{flat_map};
ghost use Rattle.lar_bytes.specs.Answers.{Answers};
ghost use Rattle.object_format.specs.Object.{Unlinked, IsSymbol, SpellsObject, callees_of, unlinked_spelling};
ghost use Rattle.object_format.specs.Reading.{items_at};
ghost use Rattle.object_format.specs.ObjectReading.{symbol_at, kind_at, unlinked_behind, external_behind, functions_part_at, externals_part_at, parts_at, call_fault_in, object_up_to, object_at};

use crate::code::fault_of;
use crate::cursor::{Cursor, block_of, end_of, opening_of, refused, u8_of, u32_of};
use crate::draft::Draft;
use crate::image_reading::function_of;
use crate::symbol::symbol_text;
use crate::{BadFile, Object, ObjectFn, Version, What};
use lar_bytes::{OrMemory, Text};
use std::alloc::Global;

/// A symbol that is none of those so far.
#[tactic(auto, unfolding(crate::specs::ObjectReading::symbol_at))]
fn symbol_of<'a>(
    draft: &Draft,
    rest: Cursor<'a>,
) -> Result<(&'a str, Cursor<'a>), OrMemory<BadFile>>
    ensures read { Answers (λ x. (x.0.now, x.1)) result (symbol_at (callees_of draft.now) rest.entry) }
    ensures own { IfOk result (λ x. IsSymbol x.0.now) }
{
    let (len, rest) = u32_of(rest)?;
    let at = rest.at;
    let (bytes, rest) = block_of(len as usize, rest)?;
    match symbol_text(bytes) {
        Some(symbol) if !draft.has(symbol) => Ok((symbol, rest)),
        _ => Err(refused(at, What::Symbol)),
    }
}

/// Whether a function is external.
fn kind_of(rest: Cursor) -> Result<(bool, Cursor), OrMemory<BadFile>>
    ensures { Answers (λ x. x) result (kind_at rest.entry) }
{
    let at = rest.at;
    let (kind, rest) = u8_of(rest)?;
    match kind {
        1 => Ok((true, rest)),
        0 => Ok((false, rest)),
        _ => Err(refused(at, What::Kind)),
    }
}

/// One function more. Its calls are not looked at yet.
#[tactic(auto, unfolding(crate::specs::ObjectReading::unlinked_behind))]
fn function_behind<'a>(
    alloc: Global,
    version: Version,
    draft: Draft<'a>,
    rest: Cursor<'a>,
) -> Result<(Draft<'a>, Cursor<'a>), OrMemory<BadFile>>
    ensures { Answers (λ x. x) result (unlinked_behind version draft.entry rest.entry) }
{
    let (symbol, rest) = symbol_of(&draft, rest)?;
    let (external, rest) = kind_of(rest)?;
    let (body, rest) = function_of(alloc, version, None, rest)?;
    let function = ObjectFn::of_body(Text::copied(alloc, symbol)?, external, body);
    let draft = draft.with_function(symbol, function)?;
    Ok((draft, rest))
}

/// One external more.
#[tactic(auto, unfolding(crate::specs::ObjectReading::external_behind))]
fn external_behind<'a>(
    alloc: Global,
    draft: Draft<'a>,
    rest: Cursor<'a>,
) -> Result<(Draft<'a>, Cursor<'a>), OrMemory<BadFile>>
    ensures { Answers (λ x. x) result (external_behind draft.entry rest.entry) }
{
    let (symbol, rest) = symbol_of(&draft, rest)?;
    let draft = draft.with_external(symbol, Text::copied(alloc, symbol)?)?;
    Ok((draft, rest))
}

/// So many functions.
fn functions_of<'a>(
    alloc: Global,
    version: Version,
    count: u32,
    draft: Draft<'a>,
    rest: Cursor<'a>,
) -> Result<(Draft<'a>, Cursor<'a>), OrMemory<BadFile>>
    ensures { Answers (λ x. x) result (items_at (unlinked_behind version) count draft.entry rest.entry) }
{
    let mut draft = draft;
    let mut rest = rest;
    for _ in 0..count {
        let (more, behind) = function_behind(alloc, version, draft, rest)?;
        draft = more;
        rest = behind;
    }
    Ok((draft, rest))
}

/// So many externals.
fn externals_of<'a>(
    alloc: Global,
    count: u32,
    draft: Draft<'a>,
    rest: Cursor<'a>,
) -> Result<(Draft<'a>, Cursor<'a>), OrMemory<BadFile>>
    ensures { Answers (λ x. x) result (items_at external_behind count draft.entry rest.entry) }
{
    let mut draft = draft;
    let mut rest = rest;
    for _ in 0..count {
        let (more, behind) = external_behind(alloc, draft, rest)?;
        draft = more;
        rest = behind;
    }
    Ok((draft, rest))
}

/// The functions behind their count.
#[tactic(auto, unfolding(crate::specs::ObjectReading::functions_part_at))]
fn functions_part_of<'a>(
    alloc: Global,
    version: Version,
    rest: Cursor<'a>,
) -> Result<(Draft<'a>, Cursor<'a>), OrMemory<BadFile>>
    ensures { Answers (λ x. x) result (functions_part_at version rest.entry) }
{
    let (count, rest) = u32_of(rest)?;
    functions_of(alloc, version, count, Draft::new(alloc), rest)
}

/// The externals behind their count.
#[tactic(auto, unfolding(crate::specs::ObjectReading::externals_part_at))]
fn externals_part_of<'a>(
    alloc: Global,
    draft: Draft<'a>,
    rest: Cursor<'a>,
) -> Result<(Draft<'a>, Cursor<'a>), OrMemory<BadFile>>
    ensures { Answers (λ x. x) result (externals_part_at draft.entry rest.entry) }
{
    let (count, rest) = u32_of(rest)?;
    externals_of(alloc, count, draft, rest)
}

/// Magic, version, the functions and the externals.
#[tactic(auto, unfolding(crate::specs::ObjectReading::parts_at))]
fn parts_of<'a>(
    alloc: Global,
    newest: Version,
    rest: Cursor<'a>,
) -> Result<(Version, Draft<'a>, Cursor<'a>), OrMemory<BadFile>>
    ensures { Answers (λ x. x) result (parts_at newest rest.entry) }
{
    let (version, rest) = opening_of(newest, b"LROB", rest)?;
    let (draft, rest) = functions_part_of(alloc, version, rest)?;
    let (draft, rest) = externals_part_of(alloc, draft, rest)?;
    Ok((version, draft, rest))
}

/// The first call without a callee, in functions of a file of which the first stands at this place.
fn call_fault_of(version: Version, callees: u64, at: u64, functions: &[ObjectFn]) -> Option<BadFile>
    requires { at + length (flat_map (unlinked_spelling version) functions.now) < 2 ^ 64 }
    ensures { result ≡ call_fault_in version callees at functions.now }
{
    let mut place = at;
    for function in functions {
        let code = function.code();
        let behind = place + 5 + function.symbol().len() as u64 + version.code_offset();
        if let Some(fault) = fault_of(Some(callees), behind, code) {
            return Some(fault);
        }
        place = behind + code.len() as u64;
    }
    None
}

/// The object that the bytes spell in a version that is none above the newest one that is taken.
#[tactic(auto, unfolding(crate::specs::ObjectReading::object_up_to))]
pub(crate) fn object_of(
    alloc: Global,
    newest: Version,
    bytes: &[u8],
) -> Result<Object, OrMemory<BadFile>>
    ensures { Answers (λ x. x) result (object_up_to newest bytes.now) }
{
    let (version, draft, rest) = parts_of(alloc, newest, Cursor { at: 0, bytes })?;
    end_of(rest)?;
    let (functions, externals) = draft.into_parts();
    let callees = functions.len() as u64 + externals.len() as u64;
    if let Some(fault) = call_fault_of(version, callees, 10, functions.as_slice()) {
        return Err(OrMemory::Refused(fault));
    }
    Ok(Object::new(functions, externals))
}

/// The object that the bytes spell in one of the versions, all of the bytes. A refusal names the first field, from left to right, that
/// breaks its rule: a field that the end cuts, a magic or version that is another, a symbol that may not be one or stands twice, a kind
/// that is none, a length of code beyond the version's limit, a byte of code at which no instruction stands, bytes behind the last
/// external; and where there is none, the first call without a callee.
pub fn read_object(alloc: Global, bytes: &[u8]) -> Result<Object, OrMemory<BadFile>>
    // What is read is spelled so.
    ensures found { IfOk result (λ object. SpellsObject bytes.now object) }
    // What is spelled so is read, unless memory runs out.
    ensures only { (object : Unlinked) → SpellsObject bytes.now object → Answers (λ x. x) result (Ok object) }
    // Which fault it is.
    ensures exact { Answers (λ x. x) result (object_at bytes.now) }
{
    object_of(alloc, Version::Two, bytes)
}
