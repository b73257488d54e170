//! The input of a unit as a whole, which keeps the rules.
ghost use Rattle.std.specs.Prelude.{◌≡◌};
ghost use Rattle.unit_input.specs.InputView.{InputParts, input_view};
ghost use Rattle.unit_input.specs.Rules.{IsInput};

use crate::{ExternalFn, UnitFn};
use sqlite_items::Items;
use std::marker::Model;

/// All that a unit depends on: the level of the optimiser, the unit's functions, and what it calls of other units.
///
/// Its type keeps the rules of `specs/Rules.antt`, `IsInput`: the level is 0 to 2; each list is as short as its count in the text
/// can say; locals and calls have numbers in range; symbols are distinct; an assertion is a truth made of numbers, truths and
/// operators; and each place takes as many words as stand in it.
#[derive(Drop)]
pub struct UnitInput {
    level: u8,
    functions: Items<UnitFn>,
    externals: Items<ExternalFn>,
}

impl Model for UnitInput {
    ghost use Rattle.std.specs.Coded.{codes};
    ghost use Rattle.unit_input.specs.InputView.{InputParts, input_view};
    ghost use Rattle.unit_input.specs.Rules.{IsInput};
    ghost use Rattle.unit_input.specs.contracts.stmt.UnitStmt as stmt;

    ghost Value = { InputParts };

    ghost coded = { Prim.hlevel (codes, stmt.the_row.coded) };

    ghost view = { λ x. record { level = x.level; functions = x.functions; externals = x.externals } };

    ghost invariant = { λ x. IsInput (input_view (record { level = x.level; functions = x.functions; externals = x.externals })) };
}

impl UnitInput {
    pub fn new(level: u8, functions: Items<UnitFn>, externals: Items<ExternalFn>) -> UnitInput
        requires { IsInput (input_view (record { level = level; functions = functions; externals = externals })) }
        ensures { result ≡ record { level = level; functions = functions; externals = externals } }
    {
        UnitInput {
            level,
            functions,
            externals,
        }
    }

    /// The level of the optimiser.
    pub fn level(&self) -> u8
        ensures level { result ≡ self.now.level }
        ensures rules { IsInput (input_view self.now) }
    {
        self.level
    }

    /// The unit's functions: those at home in it, and then the copies, each in byte order of symbols.
    pub fn functions(&self) -> &[UnitFn]
        ensures list { result.now ≡ self.now.functions }
        ensures rules { IsInput (input_view self.now) }
    {
        self.functions.as_slice()
    }

    /// What the unit calls and other units have, in byte order of symbols.
    pub fn externals(&self) -> &[ExternalFn]
        ensures list { result.now ≡ self.now.externals }
        ensures rules { IsInput (input_view self.now) }
    {
        self.externals.as_slice()
    }
}
