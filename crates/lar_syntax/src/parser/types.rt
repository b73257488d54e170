//! Types, and what stands in angle brackets after a path.

ghost use Rattle.std.specs.Prelude.{◌≡◌, ◌∷◌, [], ◌≤◌, ◌<◌, length, OnOk};
ghost use Rattle.lar_tree.specs.Spelling.{sign_token, flat_path};
ghost use Rattle.lar_tree.specs.Commas.{flat_commas};
ghost use Rattle.lar_tree.specs.declared.sign.Sign.TheVariants as sign;
ghost use Rattle.lar_grammar.specs.Looks.{look};
ghost use Rattle.lar_grammar.specs.Symbols as symbol;
ghost use Rattle.lar_grammar.specs.Moves.{angle_rest};
ghost use Rattle.lar_syntax.specs.Reads.{begins_number, Reads, ReadsOn, ty_tokens, arg_tokens, args_tokens};

use super::cursor::{Parser, Stop};
use lar_tree::{
    Commas, GenericArg, GenericArgs, Keyword, Kind, Path, Segment, Sign, Span, TupleTy, Ty,
};
use sqlite_items::Items;

impl<'a> Parser<'a> {
    /// Reads a type that stands in no other and in no expression.
    pub(super) fn outer_ty(&mut self) -> Result<Ty, Stop>
        ensures reads { Reads ty_tokens (symbol.outer_type ∷ []) self.old result self.new }
        ensures shorter { length self.new.rest.now ≤ length self.old.rest.now }
        ensures taken { OnOk result (length self.new.rest.now < length self.old.rest.now) }
    {
        self.room = Some(512);
        let whole = self.ty()?;
        self.room = None;
        Ok(whole)
    }

    /// Reads a type.
    #[cycle(types)]
    pub(super) fn ty(&mut self) -> Result<Ty, Stop>
        ensures reads { Reads ty_tokens (symbol.one_type ∷ []) self.old result self.new }
        ensures shorter { length self.new.rest.now ≤ length self.old.rest.now }
        ensures taken { OnOk result (length self.new.rest.now < length self.old.rest.now) }
    {
        match self.peek() {
            Some(Kind::Word(Keyword::I64)) => {
                let at = self.advance()?;
                Ok(Ty::int(at))
            }
            Some(Kind::Word(Keyword::Bool)) => {
                let at = self.advance()?;
                Ok(Ty::bool(at))
            }
            Some(Kind::Sign(Sign::OpenParen)) => {
                let from = self.advance()?;
                self.tuple_rest(from)
            }
            Some(Kind::Name(_)) => self.named_ty(),
            _ => Err(Stop::Syntax),
        }
    }

    /// Reads what stands behind a type's round bracket.
    #[cycle(types)]
    fn tuple_rest(&mut self, from: Span) -> Result<Ty, Stop>
        ensures reads { ReadsOn (sign_token sign.OpenParen from ∷ []) ty_tokens (symbol.tuple_rest ∷ []) self.old result self.new }
        ensures shorter { length self.new.rest.now ≤ length self.old.rest.now }
    {
        if self.sees(Sign::CloseParen) {
            let to = self.advance()?;
            return Ok(Ty::unit(from, to));
        }
        let first = self.ty()?;
        let comma = self.expect(Sign::Comma)?;
        let others = self.types()?;
        let to = self.expect(Sign::CloseParen)?;
        let tuple = TupleTy::new(from, first, comma, others.first, others.more, to);
        let whole = Ty::tuple(self.alloc, tuple)?;
        Ok(whole)
    }

    /// Reads the types of a tuple from the second on.
    #[cycle(types)]
    fn types(&mut self) -> Result<Commas<Ty>, Stop>
        ensures reads { Reads (flat_commas ty_tokens) (symbol.one_type ∷ symbol.more symbol.type_member 6 ∷ []) self.old result self.new }
        ensures shorter { length self.new.rest.now ≤ length self.old.rest.now }
    {
        let first = self.ty()?;
        let mut list = Commas::one(self.alloc, first);
        let mut left: u8 = 6;
        'commas: while self.sees(Sign::Comma) {
            let comma = self.advance()?;
            if left == 0 {
                return Err(Stop::Syntax);
            }
            left -= 1;
            let value = self.ty()?;
            list.push(comma, value)?;
        }
        Ok(list)
    }

    /// Reads a type that begins with a name.
    #[cycle(types)]
    fn named_ty(&mut self) -> Result<Ty, Stop>
        ensures reads { Reads ty_tokens (symbol.one_name ∷ symbol.segments ∷ symbol.angle symbol.arg_member ∷ []) self.old result self.new }
        ensures shorter { length self.new.rest.now ≤ length self.old.rest.now }
        ensures taken { OnOk result (length self.new.rest.now < length self.old.rest.now) }
    {
        let path = self.path()?;
        if !self.sees(Sign::Less) {
            return Ok(Ty::named(path));
        }
        let from = self.advance()?;
        let args = self.args_rest(from)?;
        let whole = Ty::generic(self.alloc, path, args)?;
        Ok(whole)
    }

    /// Reads what stands behind the `<` of generics.
    #[cycle(types)]
    pub(super) fn args_rest(&mut self, from: Span) -> Result<GenericArgs, Stop>
        ensures reads { ReadsOn (sign_token sign.Less from ∷ []) args_tokens (angle_rest symbol.arg_member) self.old result self.new }
        ensures shorter { length self.new.rest.now ≤ length self.old.rest.now }
    {
        let list = self.args()?;
        let to = self.expect(Sign::Greater)?;
        Ok(GenericArgs::new(from, list, to))
    }

    /// Reads arguments, one at least.
    #[cycle(types)]
    fn args(&mut self) -> Result<Commas<GenericArg>, Stop>
        ensures reads { Reads (flat_commas arg_tokens) (symbol.member symbol.arg_member ∷ symbol.more symbol.arg_member 15 ∷ []) self.old result self.new }
        ensures shorter { length self.new.rest.now ≤ length self.old.rest.now }
    {
        let first = self.arg()?;
        let mut list = Commas::one(self.alloc, first);
        let mut left: u8 = 15;
        'commas: while self.sees(Sign::Comma) {
            let comma = self.advance()?;
            if left == 0 {
                return Err(Stop::Syntax);
            }
            left -= 1;
            let value = self.arg()?;
            list.push(comma, value)?;
        }
        Ok(list)
    }

    /// Reads an argument: a number or a type.
    #[cycle(types)]
    fn arg(&mut self) -> Result<GenericArg, Stop>
        ensures reads { Reads arg_tokens (symbol.member symbol.arg_member ∷ []) self.old result self.new }
        ensures shorter { length self.new.rest.now ≤ length self.old.rest.now }
    {
        if self.begins_number() {
            let number = self.signed_number()?;
            return Ok(GenericArg::number(number));
        }
        let ty = self.ty()?;
        Ok(GenericArg::ty(ty))
    }

    /// Whether the next token begins a number, with a sign before it or none.
    fn begins_number(&self) -> bool
        ensures { result ≡ begins_number (look self.now.rest.now) }
    {
        match self.peek() {
            Some(Kind::Sign(Sign::Minus)) => true,
            Some(Kind::Number(_)) => true,
            _ => false,
        }
    }

    /// Reads names with `::` between them.
    fn path(&mut self) -> Result<Path, Stop>
        ensures reads { Reads flat_path (symbol.one_name ∷ symbol.segments ∷ []) self.old result self.new }
        ensures shorter { length self.new.rest.now ≤ length self.old.rest.now }
        ensures taken { OnOk result (length self.new.rest.now < length self.old.rest.now) }
    {
        let first = self.name()?;
        let mut more = Items::new(self.alloc);
        'segments: while self.sees(Sign::PathSep) {
            let sep = self.advance()?;
            let name = self.name()?;
            more.push(Segment { sep, name })?;
        }
        Ok(Path { first, more })
    }
}
