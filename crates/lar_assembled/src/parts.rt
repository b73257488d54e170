//! Small parts of functions.
ghost use Rattle.std.specs.Prelude.{◌≡◌, length, IfOk};
ghost use Rattle.lar_tree.specs.ItemView.{fn_view};
ghost use Rattle.lar_rules.specs.Checked as rules;
ghost use Rattle.lar_rules.specs.Signatures.{list_in};
ghost use Rattle.lar_assembled.specs.Functions.{all_there};

use lar_tree::{Attribute, AttributeWord, Fn};
use sqlite_items::Items;
use std::alloc::{AllocError, Global};

fn is_same_word(a: AttributeWord, b: AttributeWord) -> bool
    ensures { result ≡ rules.same_word a b }
{
    match a {
        AttributeWord::Inline => match b {
            AttributeWord::Inline => true,
            AttributeWord::Export => false,
        },
        AttributeWord::Export => match b {
            AttributeWord::Inline => false,
            AttributeWord::Export => true,
        },
    }
}

/// Whether one of the attributes is this word.
pub(crate) fn has_word(word: AttributeWord, attributes: &[Attribute]) -> bool
    ensures { result ≡ rules.has_word word attributes.now }
{
    for attribute in attributes {
        if is_same_word(word, attribute.word) {
            return true;
        }
    }
    false
}

/// How many parameters a function declares.
pub(crate) fn param_count(it: &Fn) -> usize
    ensures { result ≡ length (list_in (fn_view it.now).params) }
{
    match &it.params {
        None => 0,
        Some(list) => list.len(),
    }
}

/// The numbers, where each is there.
pub(crate) fn each_there(
    alloc: Global,
    numbers: &[Option<usize>],
) -> Result<Option<Items<usize>>, AllocError>
    ensures { IfOk result (λ out. out ≡ all_there numbers.now) }
{
    let mut out = Vec::new(alloc);
    for number in numbers {
        match number {
            None => return Ok(None),
            Some(number) => out.push(*number)?,
        }
    }
    Ok(Some(Items::from_vec(out)))
}
