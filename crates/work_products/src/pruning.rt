//! Removing from a keeper the names of records that no one wants.

ghost use Rattle.std.specs.Prelude.{◌≡◌, ◌+◌, ◌∷◌, [], true, false, filter, IfOk, IfSome};
ghost use Rattle.std.specs.List.{list_all};
ghost use Rattle.journal.specs.declared.journal.Done.TheVariants as done;
ghost use Rattle.keepers.specs.KeeperNoted.{bytes_of_all};
ghost use Rattle.keepers.specs.KeeperState.{RemoveStep, faults_of};
ghost use Rattle.work_products.specs.Pruning.{HoldsNames, KeepsOthers, PruneEnds, PruneTells, PrunesUnwanted, StopsAt, gone, is_unwanted};
ghost use Rattle.work_products.specs.Records as spec;
ghost use Rattle.work_products.specs.Store.{keep_faults};

use crate::Kept;
use keepers::{Keeper, Named, Saved};
use lar_bytes::Text;
use std::alloc::{AllocError, Global};
use std::collections::BTreeSet;

/// How many digits the name of a record has.
const NAME_LENGTH: usize = 64;

fn are_lower_digits(bytes: &[u8]) -> bool
    ensures { result ≡ list_all spec.is_lower_digit bytes.now }
{
    bytes
        .iter()
        .all(|c| (48 <= *c && *c <= 57) || (97 <= *c && *c <= 102))
}

/// Whether a name is one that a record may have: 64 digits, none of them of upper case.
pub fn is_record_name(name: &str) -> bool
    ensures { result ≡ spec.is_record_name name.now }
{
    name.len() == NAME_LENGTH && are_lower_digits(name.as_bytes())
}

/// Names that are found in logarithmic time.
fn set_of<'a>(alloc: Global, names: &'a [Text]) -> Result<BTreeSet<&'a str>, AllocError>
    ensures { IfOk result (λ set. HoldsNames names.now set) }
{
    let mut set = BTreeSet::new(alloc);
    for name in names {
        set.insert(name.as_str())?;
    }
    Ok(set)
}

/// Removes a name, where it is one of a record and not wanted. The answer is whether the keeper did not fail.
fn remove_unwanted<K: Keeper>(keeper: &mut K, wanted: &BTreeSet<&str>, name: &str) -> bool
    ensures done { result ≡ true → K.told keeper.new ≡ gone (filter (is_unwanted wanted.now) (name.now ∷ [])) (K.told keeper.old) }
    ensures failed { result ≡ false
        → (is_unwanted wanted.now name.now ≡ true) × RemoveStep (K.told keeper.old) name.now done.Failed (K.told keeper.new) }
{
    if !is_record_name(name) || wanted.contains(name) {
        return true;
    }
    match keeper.remove(name) {
        Saved::Done => true,
        Saved::Failed => false,
        Saved::Memory => false,
    }
}

/// Removes each of the names that is one of a record and not wanted, up to a failure. The answer is whether there was none.
fn remove_all<K: Keeper>(keeper: &mut K, wanted: &BTreeSet<&str>, listed: &[String]) -> bool
    ensures done { result ≡ true
        → K.told keeper.new ≡ gone (filter (is_unwanted wanted.now) (bytes_of_all listed.now)) (K.told keeper.old) }
    ensures failed { result ≡ false
        → StopsAt (K.told keeper.old) (filter (is_unwanted wanted.now) (bytes_of_all listed.now)) (K.told keeper.new) }
{
    for name in listed {
        if !remove_unwanted(keeper, wanted, name.as_str()) {
            return false;
        }
    }
    true
}

/// Removes the names of records that are none of those wanted.
fn prune_listed<K: Keeper>(
    alloc: Global,
    keeper: &mut K,
    wanted: &BTreeSet<&str>,
) -> Result<Kept, AllocError>
    ensures { PrunesUnwanted (K.told keeper.old) wanted.now result (K.told keeper.new) }
{
    match keeper.names(alloc) {
        Ok(Named::Names(listed)) => {
            if remove_all(keeper, wanted, listed.as_slice()) {
                Ok(Kept::Done)
            } else {
                Ok(Kept::StoreFault)
            }
        }
        Ok(Named::Failed) => Ok(Kept::StoreFault),
        Err(error) => Err(error),
    }
}

fn prune_names<K: Keeper>(alloc: Global, keeper: &mut K, names: &[Text]) -> Result<Kept, AllocError>
    ensures { PruneEnds (K.told keeper.old) names.now result (K.told keeper.new) }
{
    let wanted = set_of(alloc, names)?;
    prune_listed(alloc, keeper, &wanted)
}

/// Removes each name of 64 lower-case hexadecimal digits that is none of these. Other names stay. `StoreFault` comes only where a
/// call on the keeper fails; names may be gone by then.
pub fn prune<K: Keeper>(alloc: Global, keeper: &mut K, names: &[Text]) -> Result<Kept, AllocError>
    ensures ends { PruneEnds (K.told keeper.old) names.now result (K.told keeper.new) }
    ensures tells { IfSome (K.told keeper.old).held (λ held. PruneTells names.now held result (K.told keeper.new).held) }
    ensures faults { faults_of (K.told keeper.new) ≡ faults_of (K.told keeper.old) + keep_faults result }
    ensures others { KeepsOthers names.now (K.told keeper.old).held (K.told keeper.new).held }
{
    prune_names(alloc, keeper, names)
}
