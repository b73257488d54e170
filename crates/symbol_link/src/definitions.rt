//! Where external symbols are defined.
//!
//! Symbols are looked up in an ordered map, which borrows them from the objects: a look-up takes time in the logarithm of their
//! number, whatever the symbols are.

ghost use Rattle.std.specs.Prelude.{◌≡◌, List, ℕ, Some, None, IsSome, IfOk, OnOk, if◌then◌else◌};
ghost use Rattle.std.specs.Str.{bytes_eq};

use std::alloc::{AllocError, Global};
use std::collections::BTreeMap;

/// Where an external symbol is defined.
#[derive(Clone, Copy, Debug, PartialEq, Eq)]
pub(crate) struct Definition {
    /// The number of the object.
    pub object: u32,
    /// The number of the function in the image.
    pub place: usize,
}

/// The definitions of external symbols.
#[derive(Drop)]
pub(crate) struct Definitions<'a> {
    by_symbol: BTreeMap<&'a str, Definition>,
}

impl<'a> Definitions<'a> {
    ghost use Rattle.symbol_link.specs.Found.{found};
    ghost use Rattle.symbol_link.specs.Symbols.{place_of};

    pub fn new(alloc: Global) -> Definitions<'a>
        ensures { (symbol : List ℕ) → found result symbol ≡ None }
    {
        Definitions {
            by_symbol: BTreeMap::new(alloc),
        }
    }

    /// Defines a symbol, and gives the definition that it had.
    pub fn define(
        &mut self,
        symbol: &'a str,
        definition: Definition,
    ) -> Result<Option<Definition>, AllocError>
        ensures old { IfOk result (λ old. old ≡ found self.old symbol.now) }
        ensures new { OnOk result ((q : List ℕ) → found self.new q ≡ (if bytes_eq symbol.now q then Some definition else found self.old q)) }
    {
        let earlier = self.by_symbol.insert(symbol, definition)?;
        Ok(earlier)
    }

    /// The definition of a symbol.
    pub fn get(&self, symbol: &str) -> Option<Definition>
        ensures { result ≡ found self.now symbol.now }
    {
        self.by_symbol.get(symbol).copied()
    }

    /// The place of a symbol that is defined.
    pub fn place_of(&self, symbol: &str) -> usize
        requires { IsSome (found self.now symbol.now) }
        ensures { result ≡ place_of (found self.now symbol.now) }
    {
        self.get(symbol).unwrap().place
    }
}
