//! Where the body of a function is written.

use lar_judge::{Callee, Made, Part, Site};
use lar_signatures::Signatures;
use lar_told::First;
use lar_tree::{Path, Selector, Turbofish, Ty};
use lar_written::{note_unknown, written};
use std::alloc::{AllocError, Global};
use type_table::Types;

/// Where the body of a function is written: where its types are, and what is known of all declarations.
#[derive(Clone, Copy, Drop)]
pub struct BodySite<'a> {
    pub written: lar_written::Site<'a>,
    pub signatures: &'a Signatures<'a>,
}

impl<'a> Site for BodySite<'a> {
    ghost use Rattle.lar_names.specs.NamesView.{names_view};
    ghost use Rattle.lar_written.specs.Sites.{site_view};
    ghost use Rattle.lar_signatures.specs.Signatures.{SignaturesStand};
    ghost use Rattle.lar_signatures.proofs.Grown.{signatures_grown};

    ghost site = { λ s. site_view s.written };

    ghost stands = { λ s rows. SignaturesStand rows (names_view s.written.names.now) s.signatures.now };

    fn number_generic(&self, path: &Path) -> Option<usize> {
        self.written.generics.number_named(path)
    }

    fn const_meant(&self, path: &Path) -> Option<usize> {
        self.written.names.const_meant(self.written.scope, path)
    }

    fn note_unknown(
        &self,
        alloc: Global,
        first: &mut First,
        path: &Path,
    ) -> Result<(), AllocError> {
        note_unknown(alloc, &self.written, first, path)
    }

    fn select(
        &self,
        types: &mut Types,
        of: usize,
        selector: &Selector,
    ) -> Result<Option<Part>, AllocError> {
        self.part_selected(types, of, selector)
    }

    fn callee(
        &self,
        alloc: Global,
        types: &mut Types,
        first: &mut First,
        path: &Path,
        generics: &Option<Turbofish>,
        count: usize,
    ) -> Result<Option<Callee>, AllocError> {
        self.callee_meant(alloc, types, first, path, generics, count)
    }

    fn made<'b>(
        &'b self,
        alloc: Global,
        types: &mut Types,
        first: &mut First,
        path: &Path,
        generics: &Option<Turbofish>,
    ) -> Result<Option<Made<'b>>, AllocError> {
        self.made_meant(alloc, types, first, path, generics)
    }

    fn written(
        &self,
        alloc: Global,
        types: &mut Types,
        first: &mut First,
        ty: &Ty,
    ) -> Result<Option<usize>, AllocError> {
        written(alloc, types, first, &self.written, ty)
    }

    ghost grows = { λ s old new k st. signatures_grown old new (names_view s.written.names.now) s.signatures.now k st };
}
