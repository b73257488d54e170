//! Generics against those that are declared: as many, and each of its sort.
ghost use Rattle.std.specs.Prelude.{◌≡◌, ◌==◌, List, length, map, IfOk, OnOk};
ghost use Rattle.type_table.specs.Rows.{Keeps};
ghost use Rattle.lar_rules.specs.Fault.{least};
ghost use Rattle.lar_rules.specs.Written.{sorted_list};
ghost use Rattle.lar_written.specs.Given.{marks, given_view, early_fit, late_fit, fitted_of};
ghost use Rattle.lar_written.specs.Sites.{site_view};
ghost use Rattle.lar_written.specs.Standing.{AllInside, StandsIf};

use crate::fault::{is_same_sort, note_all_missorted, note_miscounted};
use crate::number::longer;
use crate::{Given, Site};
use lar_told::First;
use lar_tree::Path;
use std::alloc::{AllocError, Global};
use type_table::{Row, Sort, Types};

/// Generics as they were given, against those that are declared.
#[derive(Clone, Copy, Debug)]
pub struct Fitted {
    /// Whether there are as many as declared.
    pub counted: bool,
    /// The list of them, where there are as many, each is of its sort and none has a fault.
    pub of: Option<usize>,
}

/// Notes what is told before the faults of the generics themselves.
pub(crate) fn fit_begun(
    alloc: Global,
    site: &Site,
    first: &mut First,
    path: &Path,
    wanted: usize,
    found: usize,
) -> Result<(), AllocError>
    ensures { OnOk result (first.new ≡ least first.old (early_fit (site_view site.now) path.now wanted found)) }
{
    if wanted == found {
        return Ok(());
    }
    note_miscounted(alloc, site, first, path, wanted, found)
}

fn sorted(types: &mut Types, sorts: &[Sort], given: &[Given]) -> Result<Option<usize>, AllocError>
    requires same { length sorts.now ≡ length given.now }
    requires inside { AllInside types.old (map (λ g. g.of) given.now) }
    ensures kept { Keeps types.old types.new }
    ensures of { IfOk result (λ n. StandsIf types.new n (sorted_list sorts.now (map (given_view types.old) given.now))) }
{
    let mut list = Some(types.intern(Row::End)?);
    let mut at = sorts.len();
    while at > 0 {
        at -= 1;
        let one = given[at];
        list = if is_same_sort(sorts[at], one.sort) {
            longer(types, one.of, list)?
        } else {
            None
        };
    }
    Ok(list)
}

/// The generics against the declared ones, once their own faults are noted.
pub(crate) fn fit_ended(
    alloc: Global,
    site: &Site,
    types: &mut Types,
    first: &mut First,
    sorts: &[Sort],
    given: &[Given],
) -> Result<Fitted, AllocError>
    requires { AllInside types.old (map (λ g. g.of) given.now) }
    ensures kept { Keeps types.old types.new }
    ensures counted { IfOk result (λ f. f.counted ≡ (length sorts.now == length given.now)) }
    ensures of { IfOk result (λ f. StandsIf types.new f.of (fitted_of sorts.now (map (given_view types.old) given.now))) }
    ensures told { OnOk result (first.new ≡ least first.old (late_fit (site_view site.now) sorts.now (map marks given.now))) }
{
    if sorts.len() != given.len() {
        return Ok(Fitted {
            counted: false,
            of: None,
        });
    }
    note_all_missorted(alloc, site, first, sorts, given)?;
    let of = sorted(types, sorts, given)?;
    Ok(Fitted { counted: true, of })
}
