//! The names by which types are printed where a body is written.
ghost use Rattle.std.specs.Prelude.{◌≡◌, List, map, IfOk};
ghost use Rattle.type_table.specs.declared.row.Row.{Row};
ghost use Rattle.lar_names.specs.NamesView.{names_view};
ghost use Rattle.lar_written.specs.Sites.{generics_view, site_view};
ghost use Rattle.lar_judge.specs.Here.{IsHere};
ghost use Rattle.lar_signatures.specs.Signatures.{SignaturesStand};

use crate::BodySite;
use lar_judge::Here;
use lar_tree::Text;
use lar_written::Generics;
use std::alloc::{AllocError, Global};

/// The names of generics, by which they are printed. There are at most 16.
pub fn generic_texts(alloc: Global, generics: &Generics) -> Result<Vec<Text>, AllocError>
    ensures { IfOk result (λ texts. texts.items ≡ map (λ g. g.name.text) (generics_view generics.now)) }
{
    let mut texts = Vec::new(alloc);
    for generic in &generics.list {
        texts.push(Text::copied(alloc, generic.name.text.as_str())?)?;
    }
    Ok(texts)
}

impl<'a> BodySite<'a> {
    /// What faults need of the place, where `generics` are the names of the generics in scope.
    pub fn here(&self, generics: &'a [Text]) -> Here<'a>
        requires { generics.now ≡ map (λ g. g.name.text) (generics_view self.now.written.generics.now) }
        ensures { (rows : List Row) → SignaturesStand rows (names_view self.now.written.names.now) self.now.signatures.now → IsHere result (site_view self.now.written) }
    {
        Here {
            file: self.written.file,
            structs: self.signatures.decls.as_slice(),
            generics,
        }
    }
}
