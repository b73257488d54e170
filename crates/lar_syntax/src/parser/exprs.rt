//! Expressions, by precedence climbing: the operand, and then each operator that still reaches it, with its right operand.
//!
//! A bracket within a bracket costs the frames of `climb`, `operand`, `prime` and `parts`, and no more.

ghost use Rattle.std.specs.Prelude.{◌≡◌, ◌∷◌, ◌++◌, [], ◌≤◌, ◌<◌, ◌+◌, length, IfOk, OnOk, Some, None, true, false};
ghost use Rattle.std.specs.Option.{option_copied};
ghost use Rattle.lar_tree.specs.declared.keyword.Keyword.TheVariants as keyword;
ghost use Rattle.lar_tree.specs.declared.sign.Sign.TheVariants as sign;
ghost use Rattle.lar_tree.specs.declared.token.Kind.TheVariants as kind;
ghost use Rattle.lar_tree.specs.Spelling.{sign_token, word_token, flat_path};
ghost use Rattle.lar_tree.specs.Exprs.{height_of, selector_token};
ghost use Rattle.lar_grammar.specs.Looks as looks;
ghost use Rattle.lar_grammar.specs.Moves as moves;
ghost use Rattle.lar_grammar.specs.Symbols as symbol;
ghost use Rattle.lar_syntax.specs.Reads.{Reads, ReadsOn, expr_tokens};
ghost use Rattle.lar_syntax.specs.ReadsExprs.{ReadsTo, reach, IsOf, parts_tokens, AreParts, init_tokens, IsInit, inits_tokens, AreInits, turbofish_tokens, generics_tokens};

use super::cursor::{Parser, Stop};
use lar_tree::{
    Binary, Call, Commas, Expr, Init, Keyword, Kind, New, Path, Segment, Selector, Sign, Span,
    Turbofish, Unary,
};
use sqlite_items::Items;

fn operator(next: Option<&Kind>) -> Option<Binary>
    ensures { result ≡ looks.operator (option_copied next.entry) }
{
    match next {
        Some(Kind::Sign(Sign::Or)) => Some(Binary::Or),
        Some(Kind::Sign(Sign::And)) => Some(Binary::And),
        Some(Kind::Sign(Sign::Equal)) => Some(Binary::Equal),
        Some(Kind::Sign(Sign::NotEqual)) => Some(Binary::NotEqual),
        Some(Kind::Sign(Sign::Less)) => Some(Binary::Less),
        Some(Kind::Sign(Sign::AtMost)) => Some(Binary::AtMost),
        Some(Kind::Sign(Sign::Greater)) => Some(Binary::Greater),
        Some(Kind::Sign(Sign::AtLeast)) => Some(Binary::AtLeast),
        Some(Kind::Sign(Sign::Plus)) => Some(Binary::Plus),
        Some(Kind::Sign(Sign::Minus)) => Some(Binary::Minus),
        Some(Kind::Sign(Sign::Star)) => Some(Binary::Star),
        Some(Kind::Sign(Sign::Slash)) => Some(Binary::Slash),
        Some(Kind::Sign(Sign::Percent)) => Some(Binary::Percent),
        _ => None,
    }
}

fn prefix(next: Option<&Kind>) -> Option<Unary>
    ensures { result ≡ looks.prefix (option_copied next.entry) }
{
    match next {
        Some(Kind::Sign(Sign::Minus)) => Some(Unary::Minus),
        Some(Kind::Sign(Sign::Not)) => Some(Unary::Not),
        _ => None,
    }
}

/// The height of the lowest operator that may follow the right operand of this one: a comparison does not chain.
fn next_low(op: Binary) -> u8
    ensures { result ≡ moves.next_low op }
{
    match op {
        Binary::Star | Binary::Slash | Binary::Percent => 2,
        Binary::Plus | Binary::Minus => 3,
        Binary::Or => 6,
        _ => 5,
    }
}

impl<'a> Parser<'a> {
    /// The next token as an operator, if its height is within these.
    fn operator(&self, low: u8, high: u8) -> Option<Binary>
        ensures { result ≡ reach low high (looks.operator (looks.look self.now.rest.now)) }
    {
        let op = operator(self.peek())?;
        if low <= op.height() && op.height() <= high {
            Some(op)
        } else {
            None
        }
    }

    /// The next token as a sign before an operand.
    fn prefix(&self) -> Option<Unary>
        ensures { result ≡ looks.prefix (looks.look self.now.rest.now) }
    {
        prefix(self.peek())
    }

    /// An expression that stands in no other.
    pub(super) fn outer_expr(&mut self) -> Result<Expr, Stop>
        ensures reads { Reads expr_tokens (symbol.outer_expr ∷ []) self.old result self.new }
        ensures grouped { IfOk result (λ e. IsOf 6 e) }
        ensures shorter { length self.new.rest.now ≤ length self.old.rest.now }
    {
        self.room = Some(512);
        let whole = self.climb(6)?;
        self.room = None;
        Ok(whole)
    }

    /// An expression of at most this height.
    #[cycle(expr)]
    fn climb(&mut self, high: u8) -> Result<Expr, Stop>
        requires { 1 ≤ high }
        ensures reads { Reads expr_tokens (symbol.level high ∷ []) self.old result self.new }
        ensures grouped { IfOk result (λ e. IsOf high e) }
        ensures shorter { length self.new.rest.now ≤ length self.old.rest.now }
    {
        let mut left = self.operand()?;
        let mut low = 2;
        'operators: while let Some(op) = self.operator(low, high) {
            let at = self.advance()?;
            let right = self.climb(op.height() - 1)?;
            left = Expr::binary(self.alloc, left, op, at, right)?;
            low = next_low(op);
        }
        Ok(left)
    }

    /// An operand with the signs before it.
    #[cycle(expr)]
    fn operand(&mut self) -> Result<Expr, Stop>
        ensures reads { Reads expr_tokens (symbol.operand ∷ []) self.old result self.new }
        ensures grouped { IfOk result (λ e. IsOf 1 e) }
        ensures shorter { length self.new.rest.now ≤ length self.old.rest.now }
    {
        match self.prefix() {
            Some(op) => {
                let at = self.advance()?;
                let inner = self.operand()?;
                let whole = Expr::unary(self.alloc, op, at, inner)?;
                Ok(whole)
            }
            None => {
                let inner = self.prime()?;
                self.dotted(inner)
            }
        }
    }

    /// An operand with no sign before it and no field behind it.
    #[cycle(expr)]
    fn prime(&mut self) -> Result<Expr, Stop>
        requires { looks.prefix (looks.look self.old.rest.now) ≡ None }
        ensures reads { ReadsTo expr_tokens (symbol.operand ∷ []) (symbol.post ∷ []) self.old result self.new }
        ensures grouped { IfOk result (λ e. IsOf 0 e) }
        ensures shorter { length self.new.rest.now ≤ length self.old.rest.now }
    {
        match self.peek() {
            Some(Kind::Number(value)) => {
                let at = self.advance()?;
                Ok(Expr::number(*value, at))
            }
            Some(Kind::Word(Keyword::True)) => {
                let at = self.advance()?;
                Ok(Expr::truth(at))
            }
            Some(Kind::Word(Keyword::False)) => {
                let at = self.advance()?;
                Ok(Expr::untruth(at))
            }
            Some(Kind::Sign(Sign::OpenParen)) => {
                let from = self.advance()?;
                let list = self.parts(7)?;
                let to = self.expect(Sign::CloseParen)?;
                let whole = Expr::paren(self.alloc, from, list, to)?;
                Ok(whole)
            }
            Some(Kind::Name(_)) => self.named(),
            Some(Kind::Word(Keyword::New)) => self.new_struct(),
            _ => Err(Stop::Syntax),
        }
    }

    /// The fields behind an operand, if there are any.
    fn dotted(&mut self, inner: Expr) -> Result<Expr, Stop>
        requires { IsOf 0 inner }
        ensures reads { ReadsOn (expr_tokens inner) expr_tokens (symbol.post ∷ []) self.old result self.new }
        ensures grouped { IfOk result (λ e. IsOf 0 e) }
        ensures shorter { length self.new.rest.now ≤ length self.old.rest.now }
    {
        let mut whole = inner;
        'fields: while self.sees(Sign::Dot) {
            let dot = self.advance()?;
            let selector = self.selector()?;
            whole = Expr::field(self.alloc, whole, dot, selector)?;
        }
        Ok(whole)
    }

    /// What stands behind a dot.
    fn selector(&mut self) -> Result<Selector, Stop>
        ensures reads { Reads (λ s. selector_token s ∷ []) (symbol.selector ∷ []) self.old result self.new }
        ensures shorter { length self.new.rest.now ≤ length self.old.rest.now }
    {
        match self.peek() {
            Some(Kind::Number(value)) => {
                let at = self.advance()?;
                Ok(Selector::Number(*value, at))
            }
            Some(Kind::Name(_)) => {
                let name = self.name()?;
                Ok(Selector::Name(name))
            }
            _ => Err(Stop::Syntax),
        }
    }

    /// Expressions with commas between them, at most so many behind the first, or none before the closing bracket.
    #[cycle(expr)]
    fn parts(&mut self, most: u8) -> Result<Option<Commas<Expr>>, Stop>
        ensures reads { Reads parts_tokens (symbol.listed symbol.expr_member most sign.CloseParen ∷ []) self.old result self.new }
        ensures grouped { IfOk result (λ ps. AreParts ps) }
        ensures shorter { length self.new.rest.now ≤ length self.old.rest.now }
    {
        if self.sees(Sign::CloseParen) {
            return Ok(None);
        }
        let first = self.climb(6)?;
        let mut list = Commas::one(self.alloc, first);
        let mut left = most;
        'commas: while self.sees(Sign::Comma) {
            let comma = self.advance()?;
            if left == 0 {
                return Err(Stop::Syntax);
            }
            left -= 1;
            let value = self.climb(6)?;
            list.push(comma, value)?;
        }
        Ok(Some(list))
    }

    /// A path and, if they follow, generics and arguments.
    #[cycle(expr)]
    fn named(&mut self) -> Result<Expr, Stop>
        requires { looks.is_name (looks.look self.old.rest.now) ≡ true }
        ensures reads { ReadsTo expr_tokens (symbol.operand ∷ []) (symbol.post ∷ []) self.old result self.new }
        ensures grouped { IfOk result (λ e. IsOf 0 e) }
        ensures shorter { length self.new.rest.now ≤ length self.old.rest.now }
    {
        let first = self.name()?;
        let mut path = Path {
            first,
            more: Items::new(self.alloc),
        };
        'segments: while self.sees(Sign::PathSep) {
            let sep = self.advance()?;
            if self.sees(Sign::Less) {
                let generics = self.turbofish(sep)?;
                return self.call(path, Some(generics));
            }
            let name = self.name()?;
            path.more.push(Segment { sep, name })?;
        }
        if self.sees(Sign::OpenParen) {
            return self.call(path, None);
        }
        Ok(Expr::path(path))
    }

    /// Generics behind a path, from what follows the `::` on.
    fn turbofish(&mut self, sep: Span) -> Result<Turbofish, Stop>
        ensures reads { ReadsOn (sign_token sign.PathSep sep ∷ []) turbofish_tokens (symbol.one_sign sign.Less ∷ moves.angle_rest symbol.arg_member) self.old result self.new }
        ensures shorter { length self.new.rest.now ≤ length self.old.rest.now }
    {
        let from = self.expect(Sign::Less)?;
        let args = self.args_rest(from)?;
        let generics = Turbofish::new(self.alloc, sep, args)?;
        Ok(generics)
    }

    /// A call, from the bracket on.
    #[cycle(expr)]
    fn call(&mut self, path: Path, generics: Option<Turbofish>) -> Result<Expr, Stop>
        ensures reads { ReadsOn (flat_path path ++ generics_tokens generics) expr_tokens (symbol.one_sign sign.OpenParen ∷ moves.in_parens symbol.expr_member 15) self.old result self.new }
        ensures grouped { IfOk result (λ e. IsOf 0 e) }
        ensures shorter { length self.new.rest.now ≤ length self.old.rest.now }
    {
        let from = self.expect(Sign::OpenParen)?;
        let args = self.parts(15)?;
        let to = self.expect(Sign::CloseParen)?;
        let whole = Expr::call(self.alloc, Call::new(path, generics, from, args, to))?;
        Ok(whole)
    }

    /// `new`, a path, generics if they follow, and the fields.
    #[cycle(expr)]
    fn new_struct(&mut self) -> Result<Expr, Stop>
        requires { looks.look self.old.rest.now ≡ Some (kind.Word keyword.New) }
        ensures reads { ReadsTo expr_tokens (symbol.operand ∷ []) (symbol.post ∷ []) self.old result self.new }
        ensures grouped { IfOk result (λ e. IsOf 0 e) }
        ensures shorter { length self.new.rest.now ≤ length self.old.rest.now }
    {
        let at = self.advance()?;
        let first = self.name()?;
        let mut path = Path {
            first,
            more: Items::new(self.alloc),
        };
        'segments: while self.sees(Sign::PathSep) {
            let sep = self.advance()?;
            if self.sees(Sign::Less) {
                let generics = self.turbofish(sep)?;
                return self.made(at, path, Some(generics));
            }
            let name = self.name()?;
            path.more.push(Segment { sep, name })?;
        }
        self.made(at, path, None)
    }

    /// What `new` makes, from the brace on.
    #[cycle(expr)]
    fn made(&mut self, at: Span, path: Path, generics: Option<Turbofish>) -> Result<Expr, Stop>
        ensures reads { ReadsOn (word_token keyword.New at ∷ (flat_path path ++ generics_tokens generics)) expr_tokens (symbol.one_sign sign.OpenBrace ∷ moves.in_braces symbol.init_member 63) self.old result self.new }
        ensures grouped { IfOk result (λ e. IsOf 0 e) }
        ensures shorter { length self.new.rest.now ≤ length self.old.rest.now }
    {
        let from = self.expect(Sign::OpenBrace)?;
        let inits = self.inits(63)?;
        let to = self.expect(Sign::CloseBrace)?;
        let new = New::new(at, path, generics, from, inits, to);
        let whole = Expr::new_struct(self.alloc, new)?;
        Ok(whole)
    }

    /// Fields and what they are set to, at most so many behind the first, or none before the closing brace.
    #[cycle(expr)]
    fn inits(&mut self, most: u8) -> Result<Option<Commas<Init>>, Stop>
        ensures reads { Reads inits_tokens (symbol.listed symbol.init_member most sign.CloseBrace ∷ []) self.old result self.new }
        ensures grouped { IfOk result (λ is. AreInits is) }
        ensures shorter { length self.new.rest.now ≤ length self.old.rest.now }
    {
        if self.sees(Sign::CloseBrace) {
            return Ok(None);
        }
        let first = self.init()?;
        let mut list = Commas::one(self.alloc, first);
        let mut left = most;
        'commas: while self.sees(Sign::Comma) {
            let comma = self.advance()?;
            if left == 0 {
                return Err(Stop::Syntax);
            }
            left -= 1;
            let value = self.init()?;
            list.push(comma, value)?;
        }
        Ok(Some(list))
    }

    /// A field and what it is set to.
    #[cycle(expr)]
    fn init(&mut self) -> Result<Init, Stop>
        ensures reads { Reads init_tokens (symbol.member symbol.init_member ∷ []) self.old result self.new }
        ensures grouped { IfOk result (λ i. IsInit i) }
        ensures shorter { length self.new.rest.now ≤ length self.old.rest.now }
    {
        let name = self.name()?;
        let colon = self.expect(Sign::Colon)?;
        let value = self.climb(6)?;
        Ok(Init::new(name, colon, value))
    }
}
