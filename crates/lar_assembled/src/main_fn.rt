//! The function that a program begins with.
ghost use Rattle.std.specs.Prelude.{◌≡◌, ◌<◌, ◌&&◌, length};
ghost use Rattle.type_table.specs.TypeOf.{end, tuple};
ghost use Rattle.type_table.specs.Rows.{type_at};
ghost use Rattle.lar_tree.specs.ItemView.{fn_view};
ghost use Rattle.lar_typed.specs.SameType.{same_type};
ghost use Rattle.lar_rules.specs.Faults.{has_none, is_unit_there};
ghost use Rattle.lar_rules.specs.Generics.{function_generics};
ghost use Rattle.lar_rules.specs.Signatures.{list_in};
ghost use Rattle.lar_written.specs.Standing.{number_type, Inside};
ghost use Rattle.lar_assembled.specs.Functions.{is_end_row};

use lar_tree::Fn;
use type_table::{Row, Types};

/// Whether a row has no parts.
fn is_end(row: Row) -> bool
    ensures { result ≡ is_end_row row }
{
    match row {
        Row::End => true,
        _ => false,
    }
}

/// Whether a type is `()`.
fn is_unit(types: &Types, number: usize) -> bool
    requires { number < length types.now }
    ensures { result ≡ same_type (type_at types.now number) (tuple end) }
{
    match types.row(number) {
        Row::Tuple(list) => is_end(types.row(list)),
        _ => false,
    }
}

/// Whether a function has neither generics nor parameters.
fn takes_nothing(it: &Fn) -> bool
    ensures { result ≡ (has_none (function_generics (fn_view it.now).generics) && has_none (list_in (fn_view it.now).params)) }
{
    it.generics.is_none() && it.params.is_none()
}

/// Whether a program may begin with a function: it has no generics and no parameters, and `outcome`, the type of its
/// result, is `()`.
pub fn is_lawful_main(types: &Types, it: &Fn, outcome: Option<usize>) -> bool
    requires { Inside types.now outcome }
    ensures { result ≡ (has_none (function_generics (fn_view it.now).generics) && (has_none (list_in (fn_view it.now).params) && is_unit_there (number_type types.now outcome))) }
{
    match outcome {
        None => false,
        Some(number) => takes_nothing(it) && is_unit(types, number),
    }
}
