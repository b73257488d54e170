//! Units: what is compiled together.

ghost use Rattle.std.specs.Prelude.{◌≡◌};
ghost use Rattle.unit_ir.specs.Units.{IsUnit, unit_view};

use crate::IrFn;
use lar_bytes::{Text, Texts};
use sqlite_items::Items;
use std::marker::Model;

/// The intermediate form of a unit: its functions, and the externals, which are the symbols of the functions that it calls and
/// does not have. Calls count the functions and then the externals. It keeps that
/// - there are fewer than 2^32 functions and fewer than 2^32 externals;
/// - symbols are distinct, among functions and externals together, and have at least one byte, each from `!` to `~`, and fewer than 2^32;
/// - each function has at most 255 slots and no more parameters than slots;
/// - the slots that its body names are below that number, and calls have numbers below those of functions and externals together.
#[derive(Drop)]
pub struct IrUnit {
    functions: Items<IrFn>,
    externals: Texts,
}

impl Model for IrUnit {
    ghost use Rattle.std.specs.Coded.{codes};
    ghost use Rattle.unit_ir.specs.contracts.stmt.IrStmt as stmt;
    ghost use Rattle.unit_ir.specs.Units.{UnitParts};

    ghost Value = { UnitParts };

    ghost coded = { Prim.hlevel (codes, stmt.the_row.coded) };

    ghost use Rattle.unit_ir.specs.Units.{IsUnit, unit_view};

    ghost view = { λ u. record { functions = u.functions; externals = u.externals } };

    ghost invariant = { λ u. IsUnit (unit_view (record { functions = u.functions; externals = u.externals })) };
}

impl IrUnit {
    pub fn new(functions: Items<IrFn>, externals: Texts) -> IrUnit
        requires { IsUnit (unit_view (record { functions = functions; externals = externals })) }
        ensures { result ≡ record { functions = functions; externals = externals } }
    {
        IrUnit {
            functions,
            externals,
        }
    }

    /// Its functions in order, and its externals, which are moved.
    pub fn into_parts(self) -> (Items<IrFn>, Texts)
        ensures parts { self ≡ record { functions = result.0; externals = result.1 } }
        ensures unit { IsUnit (unit_view self) }
    {
        let IrUnit {
            functions,
            externals,
        } = self;
        (functions, externals)
    }

    pub fn functions(&self) -> &[IrFn]
        ensures list { result.now ≡ self.now.functions }
        ensures unit { IsUnit (unit_view self.now) }
    {
        self.functions.as_slice()
    }

    pub fn externals(&self) -> &[Text]
        ensures list { result.now ≡ self.now.externals }
        ensures unit { IsUnit (unit_view self.now) }
    {
        self.externals.as_slice()
    }
}
