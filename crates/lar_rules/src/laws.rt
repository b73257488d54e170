//! What follows from the rules, each law the contract of a function that does nothing.

ghost use Rattle.std.specs.Prelude.{◌≡◌, List, [], Some, None};
ghost use Rattle.lar_rules.specs.Fault.{Fault, least, IsAmong, NoneBefore};

/// The fault that is told is one of all faults, and none of them comes before it.
pub fn least_is_first()
    ensures { (faults : List Fault) (told : Fault) → least None faults ≡ Some told → IsAmong told faults × NoneBefore told faults }
{}

/// Where there is a fault, one is told.
pub fn none_told()
    ensures { (faults : List Fault) → least None faults ≡ None → faults ≡ [] }
{}
