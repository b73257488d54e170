//! The tokens that a tree spells, in their order.
//!
//! A [`Speller`] holds the kinds so far. It has one call for each part of a tree, which puts that part's kinds at the end; each call
//! goes through its part once, so the whole costs time in the number of tokens. Names are copied, since a tree keeps its own.
//! Members of lists are gone through by loops: the calls nest as deep as expressions, types and blocks do, and no deeper.

ghost use Rattle.std.specs.Prelude.{◌≡◌, ◌++◌, ◌∷◌, [], OnOk, IfOk};
ghost use Rattle.lar_tree.specs.declared.token.Kind.TheVariants as kind;
ghost use Rattle.lar_tree.specs.Spelling.{kinds, flat_segments, flat_path, flat_signed, name_token};
ghost use Rattle.lar_tree.specs.Items.{flat_items};
ghost use Rattle.lar_tree.specs.ItemView.{tree_view};

mod exprs;
mod items;
mod stmts;
mod types;

use crate::{Keyword, Kind, Name, Path, Segment, Sign, SignedNumber, Text, Tree};
use std::alloc::{AllocError, Global};

/// The tokens of a tree, in order.
pub fn spell_tree(alloc: Global, tree: &Tree) -> Result<Vec<Kind>, AllocError>
    ensures { IfOk result (λ spelled. spelled.items ≡ kinds (flat_items (tree_view tree.now))) }
{
    let mut speller = Speller {
        alloc,
        kinds: Vec::new(alloc),
    };
    speller.items(tree.items.as_slice())?;
    let Speller { kinds, .. } = speller;
    Ok(kinds)
}

#[derive(Drop)]
struct Speller {
    alloc: Global,
    kinds: Vec<Kind>,
}

#[tactic(auto, using(std::proofs::lemmas::Grind::common_steps, crate::proofs::KindsOf::kinds_of))]
impl Speller {
    fn put(&mut self, kind: Kind) -> Result<(), AllocError>
        ensures { OnOk result (self.new.kinds.items ≡ self.old.kinds.items ++ kind ∷ []) }
    {
        self.kinds.push(kind)?;
        Ok(())
    }

    fn sign(&mut self, sign: Sign) -> Result<(), AllocError>
        ensures { OnOk result (self.new.kinds.items ≡ self.old.kinds.items ++ kind.Sign sign ∷ []) }
    {
        self.put(Kind::Sign(sign))
    }

    fn word(&mut self, word: Keyword) -> Result<(), AllocError>
        ensures { OnOk result (self.new.kinds.items ≡ self.old.kinds.items ++ kind.Word word ∷ []) }
    {
        self.put(Kind::Word(word))
    }

    fn number(&mut self, value: i64) -> Result<(), AllocError>
        ensures { OnOk result (self.new.kinds.items ≡ self.old.kinds.items ++ kind.Number value ∷ []) }
    {
        self.put(Kind::Number(value))
    }

    fn name(&mut self, name: &Name) -> Result<(), AllocError>
        ensures { OnOk result (self.new.kinds.items ≡ self.old.kinds.items ++ kinds (name_token name.now ∷ [])) }
    {
        let text = Text::copied(self.alloc, name.text.as_str())?;
        self.put(Kind::Name(text))
    }

    fn segments(&mut self, segments: &[Segment]) -> Result<(), AllocError>
        ensures { OnOk result (self.new.kinds.items ≡ self.old.kinds.items ++ kinds (flat_segments segments.now)) }
    {
        for segment in segments {
            self.sign(Sign::PathSep)?;
            self.name(&segment.name)?;
        }
        Ok(())
    }

    fn path(&mut self, path: &Path) -> Result<(), AllocError>
        ensures { OnOk result (self.new.kinds.items ≡ self.old.kinds.items ++ kinds (flat_path path.now)) }
    {
        self.name(&path.first)?;
        self.segments(path.more.as_slice())
    }

    fn signed(&mut self, number: &SignedNumber) -> Result<(), AllocError>
        ensures { OnOk result (self.new.kinds.items ≡ self.old.kinds.items ++ kinds (flat_signed number.now)) }
    {
        if number.minus.is_some() {
            self.sign(Sign::Minus)?;
        }
        self.number(number.value)
    }
}
