//! Faults that written types have in common with expressions.
ghost use Rattle.std.specs.Prelude.{◌≡◌, List, [], ◌∷◌, length, map, string_bytes, IfOk, OnOk};
ghost use Rattle.std.specs.Str.{IsAscii};
ghost use Rattle.type_table.specs.Lawful.{same_sort};
ghost use Rattle.lar_rules.specs.Declared.{texts_of};
ghost use Rattle.lar_rules.specs.Fault.{kept, least};
ghost use Rattle.lar_rules.specs.Printed.{joined, sort_text};
ghost use Rattle.lar_rules.specs.Written.{unknown, miscounted, missorted};
ghost use Rattle.lar_written.specs.Sites.{site_view};
ghost use Rattle.lar_written.specs.Given.{marks, other_sort, sort_faults};

use crate::{Given, Site};
use lar_told::First;
use lar_tree::{Code, Path, Span, Text, Texts};
use std::alloc::{AllocError, Global};
use type_table::Sort;

/// The names of a path with `::` between them.
pub fn path_text(alloc: Global, path: &Path) -> Result<Text, AllocError>
    ensures { IfOk result (λ text. text ≡ joined (texts_of path.now)) }
{
    let mut text = String::new(alloc);
    text.push_str(path.first.text.as_str())?;
    for segment in path.more.as_slice() {
        text.push_str("::")?;
        text.push_str(segment.name.text.as_str())?;
    }
    Text::from_string(alloc, text)
}

/// Notes that a path has no meaning in its role.
pub fn note_unknown(
    alloc: Global,
    site: &Site,
    first: &mut First,
    path: &Path,
) -> Result<(), AllocError>
    ensures { OnOk result (first.new ≡ kept first.old (unknown (site_view site.now) path.now)) }
{
    let at = path.first.span;
    if !first.takes(site.file, at, Code::UnknownName) {
        return Ok(());
    }
    let mut args = Texts::new(alloc);
    args.push(path_text(alloc, path)?)?;
    first.note(site.file, at, Code::UnknownName, args);
    Ok(())
}

/// Notes that a path has another number of generics or arguments than its declaration.
pub fn note_miscounted(
    alloc: Global,
    site: &Site,
    first: &mut First,
    path: &Path,
    declared: usize,
    found: usize,
) -> Result<(), AllocError>
    ensures { OnOk result (first.new ≡ kept first.old (miscounted (site_view site.now) path.now declared found)) }
{
    first.note_counts(
        alloc,
        site.file,
        path.first.span,
        Code::WrongCount,
        declared,
        found,
    )
}

/// What a generic is, in the text of a fault.
fn sort_word(sort: Sort) -> &'static str
    ensures word { result.now ≡ sort_text sort }
    ensures ascii { IsAscii result.now }
{
    match sort {
        Sort::Ty => "type",
        Sort::Number => "number",
    }
}

pub(crate) fn is_same_sort(a: Sort, b: Sort) -> bool
    ensures { result ≡ same_sort a b }
{
    match a {
        Sort::Ty => match b {
            Sort::Ty => true,
            Sort::Number => false,
        },
        Sort::Number => match b {
            Sort::Ty => false,
            Sort::Number => true,
        },
    }
}

fn note_missorted(
    alloc: Global,
    site: &Site,
    first: &mut First,
    at: Span,
    wanted: Sort,
    found: Sort,
) -> Result<(), AllocError>
    ensures { OnOk result (first.new ≡ kept first.old (other_sort (site_view site.now) at wanted found)) }
{
    if !first.takes(site.file, at, Code::WrongType) {
        return Ok(());
    }
    let mut args = Texts::new(alloc);
    args.push(Text::copied(alloc, sort_word(wanted))?)?;
    args.push(Text::copied(alloc, sort_word(found))?)?;
    first.note(site.file, at, Code::WrongType, args);
    Ok(())
}

fn note_if_missorted(
    alloc: Global,
    site: &Site,
    first: &mut First,
    wanted: Sort,
    one: Given,
) -> Result<(), AllocError>
    ensures { OnOk result (first.new ≡ least first.old (sort_faults (site_view site.now) one.at wanted one.sort)) }
{
    if is_same_sort(wanted, one.sort) {
        return Ok(());
    }
    note_missorted(alloc, site, first, one.at, wanted, one.sort)
}

/// Notes each generic that is a number where a type is declared, or a type where a number is.
pub(crate) fn note_all_missorted(
    alloc: Global,
    site: &Site,
    first: &mut First,
    sorts: &[Sort],
    given: &[Given],
) -> Result<(), AllocError>
    requires { length sorts.now ≡ length given.now }
    ensures { OnOk result (first.new ≡ least first.old (missorted (site_view site.now) sorts.now (map marks given.now))) }
{
    for place in 0..sorts.len() {
        note_if_missorted(alloc, site, first, sorts[place], given[place])?;
    }
    Ok(())
}
