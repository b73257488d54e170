//! How many codegen units there may be.

ghost use Rattle.std.specs.Prelude.{◌≡◌, ◌≤◌};

use std::marker::Model;

/// How many codegen units there may be at most, 1 to 256, which contracts see as the number.
#[derive(Debug, Drop)]
pub struct UnitLimit {
    units: u16,
}

impl Model for UnitLimit {
    ghost use Rattle.std.specs.Prelude.{ℕ, ◌≤◌};

    ghost Value = { ℕ };

    ghost view = { λ l. l.units };

    ghost invariant = { λ l. (1 ≤ l.units) × (l.units ≤ 256) };
}

impl UnitLimit {
    pub(crate) fn new(units: u16) -> UnitLimit
        requires some { 1 ≤ units }
        requires few { units ≤ 256 }
        ensures { result ≡ units }
    {
        UnitLimit { units }
    }

    /// The number.
    pub fn get(&self) -> u16
        ensures number { result ≡ self.now }
        ensures some { 1 ≤ result }
        ensures few { result ≤ 256 }
    {
        self.units
    }
}
