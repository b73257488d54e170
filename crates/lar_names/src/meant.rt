//! What each path means.
ghost use Rattle.std.specs.Prelude.{◌≡◌, ℕ, ◌<◌, ◌∷◌, [], codes, length, map, option_map, slice_get, IfOk};
ghost use Rattle.lar_rules.specs.Declared as rules;
ghost use Rattle.lar_rules.specs.Faults.{main_meant};
ghost use Rattle.lar_rules.specs.Printed.{joined};
ghost use Rattle.lar_rules.specs.Signatures.{struct_numbered};
ghost use Rattle.lar_names.specs.Entries.{meaning};
ghost use Rattle.lar_names.specs.Declarations.{declared_view};
ghost use Rattle.lar_names.specs.Items.{struct_item, const_item, function_item};
ghost use Rattle.lar_names.specs.Meanings.{meaning_of};
ghost use Rattle.lar_names.specs.NamesView.{names_view, scope_lists, scope_view};
ghost use Rattle.lar_names.specs.Numbered as numbered;
ghost use Rattle.lar_names.specs.Scopes.{list_at};

use crate::{ConstItem, Declaration, FunctionItem, Meaning, Names, StructItem};
use lar_tree::{Name, Path, Segment, Text};
use std::alloc::{AllocError, Global};

impl<'a> Names<'a> {
    /// All that is declared, in reading order.
    pub fn declared(&self) -> &[Declaration<'a>]
        ensures { map (declared_view (scope_lists self.now)) result.now ≡ names_view self.now }
    {
        &self.declared
    }

    /// The structs by number.
    pub fn structs(&self) -> &[StructItem<'a>]
        ensures all { map (struct_item (scope_lists self.now)) result.now ≡ numbered.structs (names_view self.now) }
        ensures each { (n : ℕ) → struct_numbered (names_view self.now) n ≡ option_map (numbered.struct_at n) (slice_get (map (struct_item (scope_lists self.now)) result.now) n) }
    {
        &self.structs
    }

    /// The constants by number.
    pub fn consts(&self) -> &[ConstItem<'a>]
        ensures all { map (const_item (scope_lists self.now)) result.now ≡ numbered.consts (names_view self.now) }
    {
        &self.consts
    }

    /// The functions by number.
    pub fn functions(&self) -> &[FunctionItem<'a>]
        ensures all { map (function_item (scope_lists self.now)) result.now ≡ numbered.functions (names_view self.now) }
    {
        &self.functions
    }

    /// The names of the modules of a scope, with `::` between them. A number that is no scope's has none.
    pub fn module_path(&self, alloc: Global, scope: usize) -> Result<Text, AllocError>
        ensures { IfOk result (λ text. text ≡ joined (scope_view self.now scope)) }
    {
        self.scopes.path(alloc, scope)
    }

    // What a name means in a scope.
    fn known_in(&self, scope: usize, name: &str) -> Option<Meaning>
        requires { scope < length (scope_lists self.now) }
        ensures { result ≡ meaning (names_view self.now) (list_at (scope_lists self.now) scope) name.now }
    {
        self.known.get(scope, name).flatten()
    }

    // What a path of several names means.
    fn known_below(&self, first: &Name, between: &[Segment], last: &Name) -> Option<Meaning>
        ensures { result ≡ meaning (names_view self.now) (first.now.text ∷ map (λ s. (s.name).text) between.now) last.now.text }
    {
        match self.scopes.walk(first, between) {
            Some(scope) => self.known_in(scope, last.text.as_str()),
            None => None,
        }
    }

    // What a path of one name means, which is written in a scope.
    fn known_here(&self, here: usize, name: &Name) -> Option<Meaning>
        ensures { result ≡ meaning (names_view self.now) (scope_view self.now here) name.now.text }
    {
        if here < self.scopes.len() {
            self.known_in(here, name.text.as_str())
        } else {
            self.known_in(0, name.text.as_str())
        }
    }

    /// What a path means that is written in a scope. A number that is no scope's stands for the empty scope.
    pub fn meaning(&self, here: usize, path: &Path) -> Option<Meaning>
        ensures { result ≡ option_map meaning_of (rules.path_meant (names_view self.now) (scope_view self.now here) path.now) }
    {
        match path.more.as_slice() {
            [between @ .., last] => self.known_below(&path.first, between, &last.name),
            [] => self.known_here(here, &path.first),
        }
    }

    /// The number of the struct that a path means.
    pub fn struct_meant(&self, here: usize, path: &Path) -> Option<usize>
        ensures { result ≡ option_map (λ x. x.number) (rules.struct_meant (names_view self.now) (scope_view self.now here) path.now) }
    {
        match self.meaning(here, path) {
            Some(meaning) => meaning.struct_number(),
            None => None,
        }
    }

    /// The number of the constant that a path means.
    pub fn const_meant(&self, here: usize, path: &Path) -> Option<usize>
        ensures { result ≡ rules.const_meant (names_view self.now) (scope_view self.now here) path.now }
    {
        match self.meaning(here, path) {
            Some(meaning) => meaning.const_number(),
            None => None,
        }
    }

    /// The number of the function that a path means.
    pub fn function_meant(&self, here: usize, path: &Path) -> Option<usize>
        ensures { result ≡ option_map (λ x. x.number) (rules.function_meant (names_view self.now) (scope_view self.now here) path.now) }
    {
        match self.meaning(here, path) {
            Some(meaning) => meaning.function_number(),
            None => None,
        }
    }

    // What `main::main` means.
    fn main(&self) -> Option<Meaning>
        ensures { result ≡ meaning (names_view self.now) (codes "main" ∷ []) (codes "main") }
    {
        let _ = self.scopes.len();
        match self.scopes.find(0, "main") {
            Some(scope) => self.known_in(scope, "main"),
            None => None,
        }
    }

    /// The number of the function `main::main`.
    pub fn main_meant(&self) -> Option<usize>
        ensures { result ≡ option_map (λ x. x.number) (main_meant (names_view self.now)) }
    {
        match self.main() {
            Some(meaning) => meaning.function_number(),
            None => None,
        }
    }
}
