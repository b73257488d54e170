//! What is known of the function that is called.
ghost use Rattle.std.specs.Prelude.{◌≡◌, ◌<◌, ◌∷◌, length, Some, IfOk, OnOk};
ghost use Rattle.std.specs.Option.{option_copied};
ghost use Rattle.type_table.specs.Rows.{Keeps};
ghost use Rattle.lar_rules.specs.Declared as declared;
ghost use Rattle.lar_rules.specs.Fault.{least};
ghost use Rattle.lar_rules.specs.Written as rules;
ghost use Rattle.lar_rules.specs.Exprs.{miscalled};
ghost use Rattle.lar_names.specs.NamesView.{names_view, scope_view};
ghost use Rattle.lar_names.specs.Numbered.{function_numbered};
ghost use Rattle.lar_written.specs.Given.{given_if};
ghost use Rattle.lar_written.specs.Sites.{site_view};
ghost use Rattle.lar_judge.specs.Calls.{CalleeIs, CalleeWithin, IsCallee, call_head};
ghost use Rattle.lar_signatures.specs.Signatures.{SignaturesStand};
ghost use Rattle.lar_site.specs.Given.{given_there};

use crate::BodySite;
use crate::under::{all_under, under};
use lar_judge::Callee;
use lar_told::First;
use lar_tree::{GenericArgs, Path, Turbofish};
use lar_written::{Site, generics_fitted, generics_given, note_miscounted, note_unknown};
use std::alloc::{AllocError, Global};
use type_table::Types;

/// The generics in angle brackets, where there are some.
pub(crate) fn args_in(generics: &Option<Turbofish>) -> Option<&GenericArgs>
    ensures { (s : rules.Site) → given_if s (option_copied result) ≡ given_there s generics.now }
{
    match generics {
        None => None,
        Some(generics) => Some(generics.args.get()),
    }
}

/// Notes a path that has no meaning in its role, and the faults of its generics.
pub(crate) fn note_meaningless(
    alloc: Global,
    types: &mut Types,
    first: &mut First,
    site: &Site,
    path: &Path,
    generics: &Option<Turbofish>,
) -> Result<(), AllocError>
    ensures kept { Keeps types.old types.new }
    ensures told { OnOk result (first.new ≡ least first.old (rules.unknown (site_view site.now) path.now ∷ rules.all_given (given_there (site_view site.now) generics.now))) }
{
    note_unknown(alloc, site, first, path)?;
    generics_given(alloc, types, first, site, args_in(generics))?;
    Ok(())
}

/// Notes another number of arguments than of parameters, where the generics are right in number.
fn note_miscalled(
    alloc: Global,
    first: &mut First,
    site: &Site,
    path: &Path,
    counted: bool,
    declared: usize,
    found: usize,
) -> Result<(), AllocError>
    ensures { OnOk result (first.new ≡ least first.old (miscalled (site_view site.now) path.now counted declared found)) }
{
    if !counted {
        return Ok(());
    }
    if declared == found {
        return Ok(());
    }
    note_miscounted(alloc, site, first, path, declared, found)
}

impl<'a> BodySite<'a> {
    /// What is known of the function with this number, with these generics.
    fn called(
        &self,
        alloc: Global,
        types: &mut Types,
        first: &mut First,
        number: usize,
        path: &Path,
        generics: &Option<Turbofish>,
        count: usize,
    ) -> Result<Callee, AllocError>
        requires number { number < length self.now.signatures.now.functions.items }
        requires stands { SignaturesStand types.old (names_view self.now.written.names.now) self.now.signatures.now }
        ensures kept { Keeps types.old types.new }
        ensures within { IfOk result (λ c. CalleeWithin types.new (Some c)) }
        ensures is { IfOk result (λ c. (f : declared.Function) → function_numbered (names_view self.now.written.names.now) number ≡ Some f → IsCallee types.new c (site_view self.now.written) path.now (given_there (site_view self.now.written) generics.now) f) }
        ensures told { OnOk result ((f : declared.Function) → function_numbered (names_view self.now.written.names.now) number ≡ Some f → first.new ≡ least first.old (call_head (site_view self.now.written) path.now (given_there (site_view self.now.written) generics.now) count (Some f))) }
    {
        let site = &self.written;
        let signature = &self.signatures.functions[number];
        let args = args_in(generics);
        let fitted = generics_fitted(alloc, types, first, site, path, &signature.sorts, args)?;
        let params = signature.params.len();
        note_miscalled(alloc, first, site, path, fitted.counted, params, count)?;
        let wanted = all_under(alloc, types, fitted.of, &signature.params)?;
        let outcome = under(types, fitted.of, signature.outcome)?;
        Ok(Callee {
            number,
            generics: fitted.of,
            wanted,
            outcome,
        })
    }

    /// What is known of the function that a path means.
    pub(crate) fn callee_meant(
        &self,
        alloc: Global,
        types: &mut Types,
        first: &mut First,
        path: &Path,
        generics: &Option<Turbofish>,
        count: usize,
    ) -> Result<Option<Callee>, AllocError>
        requires { SignaturesStand types.old (names_view self.now.written.names.now) self.now.signatures.now }
        ensures kept { Keeps types.old types.new }
        ensures within { IfOk result (λ c. CalleeWithin types.new c) }
        ensures is { IfOk result (λ c. CalleeIs types.new (site_view self.now.written) path.now (given_there (site_view self.now.written) generics.now) c (declared.function_meant (names_view self.now.written.names.now) (scope_view self.now.written.names.now self.now.written.scope) path.now)) }
        ensures told { OnOk result (first.new ≡ least first.old (call_head (site_view self.now.written) path.now (given_there (site_view self.now.written) generics.now) count (declared.function_meant (names_view self.now.written.names.now) (scope_view self.now.written.names.now self.now.written.scope) path.now))) }
    {
        let site = &self.written;
        match site.names.function_meant(site.scope, path) {
            None => {
                note_meaningless(alloc, types, first, site, path, generics)?;
                Ok(None)
            }
            Some(number) => {
                let callee = self.called(alloc, types, first, number, path, generics, count)?;
                Ok(Some(callee))
            }
        }
    }
}
