//! Lists of fields and of generics.

ghost use Rattle.std.specs.Prelude.{◌≡◌, ◌∷◌, [], ◌≤◌, ◌<◌, length, OnOk};
ghost use Rattle.lar_tree.specs.Spelling.{flat_option};
ghost use Rattle.lar_tree.specs.Commas.{flat_commas};
ghost use Rattle.lar_tree.specs.Items.{flat_angled, flat_generic, flat_name};
ghost use Rattle.lar_tree.specs.declared.sign.Sign.TheVariants as sign;
ghost use Rattle.lar_tree.specs.declared.keyword.Keyword.TheVariants as word;
ghost use Rattle.lar_grammar.specs.Symbols as symbol;
ghost use Rattle.lar_syntax.specs.Reads.{Reads};
ghost use Rattle.lar_syntax.specs.ReadsItems.{field_tokens, const_generic_tokens};

use super::cursor::{Parser, Stop};
use lar_tree::{Angled, Commas, ConstGeneric, Field, Generic, Keyword, Name, Sign};

impl<'a> Parser<'a> {
    /// Reads fields up to the sign that closes them, one and at most so many more, or none.
    pub(super) fn listed_fields(
        &mut self,
        most: u8,
        close: Sign,
    ) -> Result<Option<Commas<Field>>, Stop>
        ensures reads { Reads (flat_option (flat_commas field_tokens)) (symbol.listed symbol.field_member most close ∷ []) self.old result self.new }
        ensures shorter { length self.new.rest.now ≤ length self.old.rest.now }
    {
        if self.sees(close) {
            return Ok(None);
        }
        let list = self.fields(most)?;
        Ok(Some(list))
    }

    /// Reads fields, one and at most so many more.
    fn fields(&mut self, most: u8) -> Result<Commas<Field>, Stop>
        ensures reads { Reads (flat_commas field_tokens) (symbol.member symbol.field_member ∷ symbol.more symbol.field_member most ∷ []) self.old result self.new }
        ensures shorter { length self.new.rest.now ≤ length self.old.rest.now }
    {
        let first = self.field()?;
        let mut list = Commas::one(self.alloc, first);
        let mut left = most;
        'commas: while self.sees(Sign::Comma) {
            let comma = self.advance()?;
            if left == 0 {
                return Err(Stop::Syntax);
            }
            left -= 1;
            let value = self.field()?;
            list.push(comma, value)?;
        }
        Ok(list)
    }

    /// Reads a name and its type.
    fn field(&mut self) -> Result<Field, Stop>
        ensures reads { Reads field_tokens (symbol.one_name ∷ symbol.one_sign sign.Colon ∷ symbol.outer_type ∷ []) self.old result self.new }
        ensures shorter { length self.new.rest.now ≤ length self.old.rest.now }
    {
        let name = self.name()?;
        let colon = self.expect(Sign::Colon)?;
        let ty = self.outer_ty()?;
        Ok(Field { name, colon, ty })
    }

    /// Reads the generics of a struct, if there are any.
    pub(super) fn angled_names(&mut self) -> Result<Option<Angled<Name>>, Stop>
        ensures reads { Reads (flat_option (flat_angled flat_name)) (symbol.angle symbol.name_member ∷ []) self.old result self.new }
        ensures shorter { length self.new.rest.now ≤ length self.old.rest.now }
    {
        if !self.sees(Sign::Less) {
            return Ok(None);
        }
        let open = self.advance()?;
        let list = self.names()?;
        let close = self.expect(Sign::Greater)?;
        Ok(Some(Angled { open, list, close }))
    }

    /// Reads names, one at least.
    fn names(&mut self) -> Result<Commas<Name>, Stop>
        ensures reads { Reads (flat_commas flat_name) (symbol.member symbol.name_member ∷ symbol.more symbol.name_member 15 ∷ []) self.old result self.new }
        ensures shorter { length self.new.rest.now ≤ length self.old.rest.now }
    {
        let first = self.name()?;
        let mut list = Commas::one(self.alloc, first);
        let mut left: u8 = 15;
        'commas: while self.sees(Sign::Comma) {
            let comma = self.advance()?;
            if left == 0 {
                return Err(Stop::Syntax);
            }
            left -= 1;
            let value = self.name()?;
            list.push(comma, value)?;
        }
        Ok(list)
    }

    /// Reads the generics of a function, if there are any.
    pub(super) fn angled_generics(&mut self) -> Result<Option<Angled<Generic>>, Stop>
        ensures reads { Reads (flat_option (flat_angled flat_generic)) (symbol.angle symbol.generic_member ∷ []) self.old result self.new }
        ensures shorter { length self.new.rest.now ≤ length self.old.rest.now }
    {
        if !self.sees(Sign::Less) {
            return Ok(None);
        }
        let open = self.advance()?;
        let list = self.generics()?;
        let close = self.expect(Sign::Greater)?;
        Ok(Some(Angled { open, list, close }))
    }

    /// Reads generics of a function, one at least.
    fn generics(&mut self) -> Result<Commas<Generic>, Stop>
        ensures reads { Reads (flat_commas flat_generic) (symbol.member symbol.generic_member ∷ symbol.more symbol.generic_member 15 ∷ []) self.old result self.new }
        ensures shorter { length self.new.rest.now ≤ length self.old.rest.now }
    {
        let first = self.generic()?;
        let mut list = Commas::one(self.alloc, first);
        let mut left: u8 = 15;
        'commas: while self.sees(Sign::Comma) {
            let comma = self.advance()?;
            if left == 0 {
                return Err(Stop::Syntax);
            }
            left -= 1;
            let value = self.generic()?;
            list.push(comma, value)?;
        }
        Ok(list)
    }

    /// Reads a generic of a function: a type's name, or a constant.
    fn generic(&mut self) -> Result<Generic, Stop>
        ensures reads { Reads flat_generic (symbol.member symbol.generic_member ∷ []) self.old result self.new }
        ensures shorter { length self.new.rest.now ≤ length self.old.rest.now }
    {
        if self.sees_word(Keyword::Const) {
            let made = self.const_generic()?;
            return Ok(Generic::Const(made));
        }
        let name = self.name()?;
        Ok(Generic::Ty(name))
    }

    /// Reads a constant among generics.
    fn const_generic(&mut self) -> Result<ConstGeneric, Stop>
        ensures reads { Reads const_generic_tokens (symbol.one_word word.Const ∷ symbol.one_name ∷ symbol.one_sign sign.Colon ∷ symbol.one_word word.I64 ∷ []) self.old result self.new }
        ensures shorter { length self.new.rest.now ≤ length self.old.rest.now }
    {
        let keyword = self.expect_word(Keyword::Const)?;
        let name = self.name()?;
        let colon = self.expect(Sign::Colon)?;
        let int = self.expect_word(Keyword::I64)?;
        Ok(ConstGeneric {
            keyword,
            name,
            colon,
            int,
        })
    }
}
