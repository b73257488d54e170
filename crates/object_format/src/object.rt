//! Objects: what is compiled from one unit, and not linked yet.
//!
//! A call of an object has the number of one of its functions, or goes on counting behind them over the externals, the symbols
//! of functions that other objects have. Both types keep the rules of the format, so that each object can be spelled.

ghost use Rattle.std.specs.Prelude.{◌≡◌, ◌+◌, ◌<◌, ◌≤◌, ◌^◌, length};
ghost use Rattle.std.specs.List.{AllByRecursion, IsDistinct};
ghost use Rattle.std.specs.Str.{bytes_eq};
ghost use Rattle.object_format.specs.Code.{IsWhole, IsLinkedCode};
ghost use Rattle.object_format.specs.Object.{IsSymbol, IsUnlinked, IsUnlinkedFn, body_of, callees_of};
ghost use Rattle.object_format.specs.Version.{max_code};

use crate::{ImageFn, ObjectFunctions};
use lar_bytes::{Bytes, Text, Texts};
use std::marker::Model;

/// A function of an object: its symbol, whether other objects may call it, how many words it takes, leaves and keeps in slots,
/// and its code. The symbol has at least one byte, each of them from `!` to `~`; the code is whole instructions and at most
/// `MAX_CODE` bytes.
#[derive(Debug, Drop)]
pub struct ObjectFn {
    symbol: Text,
    external: bool,
    body: ImageFn,
}

impl Model for ObjectFn {
    ghost use Rattle.object_format.specs.Object.{UnlinkedFn, IsSymbol};

    ghost Value = { UnlinkedFn };

    ghost view = { λ f. record { symbol = f.symbol; external = f.external; params = f.body.params; «result» = f.body.result; slots = f.body.slots; code = f.body.code } };

    ghost invariant = { λ f. IsSymbol f.symbol };
}

impl ObjectFn {
    /// `params`, `results` and `slots` count words.
    pub fn new(
        symbol: Text,
        external: bool,
        params: u8,
        results: u8,
        slots: u8,
        code: Bytes,
    ) -> ObjectFn
        requires symbol { IsSymbol symbol }
        requires short { length code ≤ max_code }
        requires whole { IsWhole code }
        ensures { result ≡ record { symbol = symbol; external = external; params = params; «result» = results; slots = slots; code = code } }
    {
        ObjectFn::of_body(symbol, external, ImageFn::new(params, results, slots, code))
    }

    /// What an image has of it, under a symbol.
    pub(crate) fn of_body(symbol: Text, external: bool, body: ImageFn) -> ObjectFn
        requires symbol { IsSymbol symbol }
        ensures { result ≡ record { symbol = symbol; external = external; params = body.params; «result» = body.result; slots = body.slots; code = body.code } }
    {
        ObjectFn {
            symbol,
            external,
            body,
        }
    }

    pub(crate) fn body(&self) -> &ImageFn
        ensures { result.now ≡ body_of self.now }
    {
        &self.body
    }

    pub fn symbol(&self) -> &Text
        ensures symbol { result.now ≡ self.now.symbol }
        ensures own { IsSymbol result.now }
    {
        &self.symbol
    }

    /// Whether other objects may call it.
    pub fn is_external(&self) -> bool
        ensures { result ≡ self.now.external }
    {
        self.external
    }

    pub fn params(&self) -> u8
        ensures { result ≡ self.now.params }
    {
        self.body.params()
    }

    pub fn result(&self) -> u8
        ensures { result ≡ self.now.result }
    {
        self.body.result()
    }

    pub fn slots(&self) -> u8
        ensures slots { result ≡ self.now.slots }
        ensures own { IsUnlinkedFn self.now }
    {
        self.body.slots()
    }

    pub fn code(&self) -> &[u8]
        ensures code { result.now ≡ self.now.code }
        ensures short { length result.now ≤ max_code }
        ensures whole { IsWhole result.now }
    {
        self.body.code()
    }
}

/// What is compiled from one unit: its functions, and the externals, which are the symbols of the functions that it calls and does
/// not have. No symbol stands twice, among the functions and externals together, of which each are fewer than 2^32, and each
/// call's number is below the count of both.
#[derive(Debug, Drop)]
pub struct Object {
    functions: ObjectFunctions,
    externals: Texts,
}

impl Model for Object {
    ghost use Rattle.object_format.specs.Object.{Unlinked, IsUnlinked};

    ghost Value = { Unlinked };

    ghost view = { λ o. record { functions = o.functions; externals = o.externals } };

    ghost invariant = { λ o. IsUnlinked (record { functions = o.functions; externals = o.externals }) };
}

impl Object {
    pub fn new(functions: ObjectFunctions, externals: Texts) -> Object
        requires functions { length functions < 2 ^ 32 }
        requires externals { length externals < 2 ^ 32 }
        requires symbols { AllByRecursion IsSymbol externals }
        requires distinct { IsDistinct bytes_eq (callees_of (record { functions = functions; externals = externals })) }
        requires calls { AllByRecursion (λ f. IsLinkedCode (length functions + length externals) f.code) functions }
        ensures { result ≡ record { functions = functions; externals = externals } }
    {
        Object {
            functions,
            externals,
        }
    }

    pub fn functions(&self) -> &[ObjectFn]
        ensures list { result.now ≡ self.now.functions }
        ensures unlinked { IsUnlinked self.now }
    {
        self.functions.as_slice()
    }

    pub fn externals(&self) -> &[Text]
        ensures list { result.now ≡ self.now.externals }
        ensures unlinked { IsUnlinked self.now }
    {
        self.externals.as_slice()
    }
}
