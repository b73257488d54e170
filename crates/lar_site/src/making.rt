//! What is known of the struct that `new` makes.
ghost use Rattle.std.specs.Prelude.{◌≡◌, ◌<◌, length, map, Some, IfOk, OnOk};
ghost use Rattle.type_table.specs.Rows.{Keeps};
ghost use Rattle.lar_rules.specs.Declared as declared;
ghost use Rattle.lar_rules.specs.Fault.{least};
ghost use Rattle.lar_rules.specs.Signatures.{struct_numbered};
ghost use Rattle.lar_names.specs.NamesView.{names_view, scope_view};
ghost use Rattle.lar_written.specs.Sites.{site_view};
ghost use Rattle.lar_judge.specs.Making.{MadeIs, MadeWithin, IsMade, new_head, names};
ghost use Rattle.lar_signatures.specs.Signatures.{SignaturesStand};
ghost use Rattle.lar_site.specs.Given.{given_there};

use crate::BodySite;
use crate::calling::{args_in, note_meaningless};
use crate::under::all_under;
use lar_judge::Made;
use lar_told::First;
use lar_tree::{Name, Path, Turbofish};
use lar_written::{Member, generics_fitted};
use std::alloc::{AllocError, Global};
use type_table::Types;

/// The names of fields.
fn field_names<'a>(alloc: Global, fields: &[Member<'a>]) -> Result<Vec<&'a Name>, AllocError>
    ensures { IfOk result (λ ns. names ns.items ≡ map (λ m. m.name.now) fields.now) }
{
    let mut names = Vec::new(alloc);
    for field in fields {
        names.push(field.name)?;
    }
    Ok(names)
}

impl<'a> BodySite<'a> {
    /// What is known of the struct with this number, with these generics.
    fn made_of(
        &self,
        alloc: Global,
        types: &mut Types,
        first: &mut First,
        number: usize,
        path: &Path,
        generics: &Option<Turbofish>,
    ) -> Result<Made<'a>, AllocError>
        requires number { number < length self.now.signatures.now.structs.items }
        requires stands { SignaturesStand types.old (names_view self.now.written.names.now) self.now.signatures.now }
        ensures kept { Keeps types.old types.new }
        ensures within { IfOk result (λ m. MadeWithin types.new (Some m)) }
        ensures is { IfOk result (λ m. (x : declared.Struct) → struct_numbered (names_view self.now.written.names.now) number ≡ Some x → IsMade types.new m (site_view self.now.written) path.now (given_there (site_view self.now.written) generics.now) x) }
        ensures told { OnOk result ((x : declared.Struct) → struct_numbered (names_view self.now.written.names.now) number ≡ Some x → first.new ≡ least first.old (new_head (site_view self.now.written) path.now (given_there (site_view self.now.written) generics.now) (Some x))) }
    {
        let site = &self.written;
        let signature = &self.signatures.structs[number];
        let sorts = site.struct_sorts(alloc, number)?;
        let args = args_in(generics);
        let fitted = generics_fitted(alloc, types, first, site, path, &sorts, args)?;
        let wanted = all_under(alloc, types, fitted.of, &signature.fields)?;
        let names = field_names(alloc, &signature.fields)?;
        Ok(Made {
            number,
            generics: fitted.of,
            wanted,
            names,
        })
    }

    /// What is known of the struct that a path means.
    pub(crate) fn made_meant(
        &self,
        alloc: Global,
        types: &mut Types,
        first: &mut First,
        path: &Path,
        generics: &Option<Turbofish>,
    ) -> Result<Option<Made<'a>>, AllocError>
        requires { SignaturesStand types.old (names_view self.now.written.names.now) self.now.signatures.now }
        ensures kept { Keeps types.old types.new }
        ensures within { IfOk result (λ m. MadeWithin types.new m) }
        ensures is { IfOk result (λ m. MadeIs types.new (site_view self.now.written) path.now (given_there (site_view self.now.written) generics.now) m (declared.struct_meant (names_view self.now.written.names.now) (scope_view self.now.written.names.now self.now.written.scope) path.now)) }
        ensures told { OnOk result (first.new ≡ least first.old (new_head (site_view self.now.written) path.now (given_there (site_view self.now.written) generics.now) (declared.struct_meant (names_view self.now.written.names.now) (scope_view self.now.written.names.now self.now.written.scope) path.now))) }
    {
        let site = &self.written;
        match site.names.struct_meant(site.scope, path) {
            None => {
                note_meaningless(alloc, types, first, site, path, generics)?;
                Ok(None)
            }
            Some(number) => {
                let made = self.made_of(alloc, types, first, number, path, generics)?;
                Ok(Some(made))
            }
        }
    }
}
