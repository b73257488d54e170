//! What expressions ask of the place where they are written.
ghost use Rattle.std.specs.Prelude.{◌≡◌, ◌<◌, List, length, option_map, IfOk, OnOk};
ghost use Rattle.type_table.specs.declared.row.Row.{Row};
ghost use Rattle.type_table.specs.Rows.{Keeps, type_at};
ghost use Rattle.lar_tree.specs.ExprView.{turbofish_view};
ghost use Rattle.lar_tree.specs.TypeView.{type_view};
ghost use Rattle.lar_rules.specs.Declared.{texts_of, const_meant, function_meant, struct_meant};
ghost use Rattle.lar_rules.specs.Fault.{kept, least};
ghost use Rattle.lar_rules.specs.Written as rules;
ghost use Rattle.lar_rules.specs.Exprs.{part_selected, turbofish_given};
ghost use Rattle.lar_judge.specs.Calls.{CalleeIs, CalleeWithin, call_head};
ghost use Rattle.lar_judge.specs.Known.{type_if, IfWithin};
ghost use Rattle.lar_judge.specs.Making.{MadeIs, MadeWithin, new_head};
ghost use Rattle.lar_judge.specs.Selected.{PartWithin, part_in};

use crate::{Callee, Made};
use lar_told::First;
use lar_tree::{Path, Selector, Turbofish, Ty};
use std::alloc::{AllocError, Global};
use type_table::Types;

/// A part of a tuple, or a field of a struct.
#[derive(Clone, Copy)]
pub struct Part {
    /// Its place among the parts.
    pub place: usize,
    /// Its type as the number of a row, where that is known.
    pub of: Option<usize>,
}

/// Where expressions are written: what is declared, the file, the modules that it stands in, and the generics in scope.
pub trait Site {
    /// What it is to the rules.
    ghost site: { Self → rules.Site };

    /// What it knows of declared types stands in these rows.
    ghost stands: { Self → List Row → Type 0 };

    /// It stands in a larger table too.
    ghost grows: { (s : Self) (old new : List Row) → Keeps old new → stands s old → stands s new };

    /// The const generic that a path of one name means.
    fn number_generic(&self, path: &Path) -> Option<usize>
        ensures { result ≡ rules.number_generic (site self.now).generics (texts_of path.now) };

    /// The constant that a path means.
    fn const_meant(&self, path: &Path) -> Option<usize>
        ensures { result ≡ const_meant (site self.now).all (site self.now).modules path.now };

    /// Notes that a path has no meaning in its role.
    fn note_unknown(&self, alloc: Global, first: &mut First, path: &Path) -> Result<(), AllocError>
        ensures { OnOk result (first.new ≡ kept first.old (rules.unknown (site self.now) path.now)) };

    /// The part of a tuple, or the field of a struct, that stands behind the dot.
    fn select(
        &self,
        types: &mut Types,
        of: usize,
        selector: &Selector,
    ) -> Result<Option<Part>, AllocError>
        requires of { of < length types.old }
        requires stands { stands self.now types.old }
        ensures kept { Keeps types.old types.new }
        ensures within { IfOk result (λ p. PartWithin types.new p) }
        ensures is { IfOk result (λ p. part_in types.new p ≡ part_selected (site self.now).all (type_at types.old of) selector.now) };

    /// What is known of the function that a path means, with these generics. What is wrong with the path, its generics and the count of
    /// arguments is noted.
    fn callee(
        &self,
        alloc: Global,
        types: &mut Types,
        first: &mut First,
        path: &Path,
        generics: &Option<Turbofish>,
        count: usize,
    ) -> Result<Option<Callee>, AllocError>
        requires { stands self.now types.old }
        ensures kept { Keeps types.old types.new }
        ensures within { IfOk result (λ c. CalleeWithin types.new c) }
        ensures is { IfOk result (λ c. CalleeIs types.new (site self.now) path.now (turbofish_given (site self.now) (option_map turbofish_view generics.now)) c (function_meant (site self.now).all (site self.now).modules path.now)) }
        ensures told { OnOk result (first.new ≡ least first.old (call_head (site self.now) path.now (turbofish_given (site self.now) (option_map turbofish_view generics.now)) count (function_meant (site self.now).all (site self.now).modules path.now))) };

    /// What is known of the struct that `new` makes from a path, with these generics. What is wrong with the path and its
    /// generics is noted.
    fn made<'a>(
        &'a self,
        alloc: Global,
        types: &mut Types,
        first: &mut First,
        path: &Path,
        generics: &Option<Turbofish>,
    ) -> Result<Option<Made<'a>>, AllocError>
        requires { stands self.now types.old }
        ensures kept { Keeps types.old types.new }
        ensures within { IfOk result (λ m. MadeWithin types.new m) }
        ensures is { IfOk result (λ m. MadeIs types.new (site self.now) path.now (turbofish_given (site self.now) (option_map turbofish_view generics.now)) m (struct_meant (site self.now).all (site self.now).modules path.now)) }
        ensures told { OnOk result (first.new ≡ least first.old (new_head (site self.now) path.now (turbofish_given (site self.now) (option_map turbofish_view generics.now)) (struct_meant (site self.now).all (site self.now).modules path.now))) };

    /// The type that is written, and none where there is a fault in it, which is noted.
    fn written(
        &self,
        alloc: Global,
        types: &mut Types,
        first: &mut First,
        ty: &Ty,
    ) -> Result<Option<usize>, AllocError>
        ensures kept { Keeps types.old types.new }
        ensures within { IfOk result (λ n. IfWithin types.new n) }
        ensures is { IfOk result (λ n. type_if types.new n ≡ (rules.written (site self.now) (type_view ty.now)).of) }
        ensures told { OnOk result (first.new ≡ least first.old (rules.written (site self.now) (type_view ty.now)).faults) };
}
