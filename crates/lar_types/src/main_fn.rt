//! Whether the program has a lawful `main::main`.
ghost use Rattle.std.specs.Prelude.{◌≡◌, Some};
ghost use Rattle.lar_rules.specs.Declared.{Function};
ghost use Rattle.lar_rules.specs.Faults as faults;
ghost use Rattle.lar_names.specs.NamesView.{names_view};
ghost use Rattle.lar_names.specs.Numbered.{function_numbered};
ghost use Rattle.lar_signatures.specs.Signatures.{SignaturesStand};

use lar_assembled::is_lawful_main;
use lar_names::Names;
use lar_signatures::Signatures;
use type_table::Types;

/// Whether the function of a number is a lawful `main::main`.
fn is_main(types: &Types, names: &Names, signatures: &Signatures, number: usize) -> bool
    requires { SignaturesStand types.now (names_view names.now) signatures.now }
    ensures { (x : Function) → function_numbered (names_view names.now) number ≡ Some x → result ≡ faults.is_lawful_main (names_view names.now) (Some x) }
{
    lar_signatures::laws::by_number();
    let item = match names.functions().get(number) {
        None => return false,
        Some(item) => item,
    };
    match signatures.functions.get(number) {
        None => false,
        Some(signature) => is_lawful_main(types, item.it, signature.outcome),
    }
}

/// Whether `main::main` is there, without generics and parameters and with the result `()`.
pub(crate) fn has_main(types: &Types, names: &Names, signatures: &Signatures) -> bool
    requires { SignaturesStand types.now (names_view names.now) signatures.now }
    ensures { result ≡ faults.is_lawful_main (names_view names.now) (faults.main_meant (names_view names.now)) }
{
    match names.main_meant() {
        None => false,
        Some(number) => is_main(types, names, signatures, number),
    }
}
