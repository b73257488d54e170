//! An object as far as it was read. It finds a symbol among those so far in logarithmic time, by a set of them that borrows from the file.

ghost use Rattle.std.specs.Prelude.{◌≡◌, IfOk};
ghost use Rattle.object_format.specs.Object.{callees_of};
ghost use Rattle.object_format.specs.ObjectReading.{is_among, nothing, with_function, with_external};

use crate::{ObjectFn, ObjectFunctions};
use lar_bytes::{Text, Texts};
use std::alloc::{AllocError, Global};
use std::collections::BTreeSet;
use std::marker::Model;

#[derive(Drop)]
pub(crate) struct Draft<'a> {
    functions: ObjectFunctions,
    externals: Texts,
    symbols: BTreeSet<&'a str>,
}

impl<'a> Model for Draft<'a> {
    ghost use Rattle.object_format.specs.Object.{Unlinked};
    ghost use Rattle.object_format.specs.Draft.{HoldsCallees};

    ghost Value = { Unlinked };

    ghost view = { λ d. record { functions = d.functions; externals = d.externals } };

    ghost invariant = { λ d. HoldsCallees d.symbols (record { functions = d.functions; externals = d.externals }) };
}

impl<'a> Draft<'a> {
    /// Nothing was read yet.
    pub(crate) fn new(alloc: Global) -> Draft<'a>
        ensures { result ≡ nothing }
    {
        Draft {
            functions: ObjectFunctions::new(alloc),
            externals: Texts::new(alloc),
            symbols: BTreeSet::new(alloc),
        }
    }

    /// Whether the symbol is that of a function or an external so far.
    pub(crate) fn has(&self, symbol: &str) -> bool
        ensures { result ≡ is_among (callees_of self.now) symbol.now }
    {
        self.symbols.contains(symbol)
    }

    /// One function more, of this symbol.
    pub(crate) fn with_function(
        self,
        symbol: &'a str,
        function: ObjectFn,
    ) -> Result<Draft<'a>, AllocError>
        requires { function.symbol ≡ symbol.now }
        ensures { IfOk result (λ draft. draft ≡ with_function self.entry function) }
    {
        let Draft {
            mut functions,
            externals,
            mut symbols,
        } = self;
        functions.push(function)?;
        symbols.insert(symbol)?;
        Ok(Draft {
            functions,
            externals,
            symbols,
        })
    }

    /// One external more.
    pub(crate) fn with_external(
        self,
        symbol: &'a str,
        external: Text,
    ) -> Result<Draft<'a>, AllocError>
        requires { external ≡ symbol.now }
        ensures { IfOk result (λ draft. draft ≡ with_external self.entry external) }
    {
        let Draft {
            functions,
            mut externals,
            mut symbols,
        } = self;
        externals.push(external)?;
        symbols.insert(symbol)?;
        Ok(Draft {
            functions,
            externals,
            symbols,
        })
    }

    /// Its functions and externals.
    pub(crate) fn into_parts(self) -> (ObjectFunctions, Texts)
        ensures { record { functions = result.0; externals = result.1 } ≡ self.entry }
    {
        let Draft {
            functions,
            externals,
            symbols: _,
        } = self;
        (functions, externals)
    }
}
