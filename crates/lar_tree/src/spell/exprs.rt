// Expressions.
ghost use Rattle.std.specs.Prelude.{◌≡◌, ◌++◌, ◌∷◌, [], OnOk, map, option_map};
ghost use Rattle.lar_tree.specs.declared.keyword.Keyword.TheVariants as keyword;
ghost use Rattle.lar_tree.specs.declared.sign.Sign.TheVariants as sign;
ghost use Rattle.lar_tree.specs.declared.token.Kind.TheVariants as kind;
ghost use Rattle.lar_tree.specs.Spelling.{kinds, flat_path, flat_option};
ghost use Rattle.lar_tree.specs.Commas.{member_map};
ghost use Rattle.lar_tree.specs.Exprs.{flat_expr, flat_turbofish, flat_init, flat_more_parts, flat_more_inits, selector_token};
ghost use Rattle.lar_tree.specs.ExprView.{expr_view, call_view, new_view, init_view, turbofish_view, more_parts, more_inits};

use super::Speller;
use crate::{Call, Expr, Init, Keyword, Member, New, Path, Selector, Sign, Turbofish};
use std::alloc::AllocError;

#[tactic(auto, using(std::proofs::lemmas::Grind::common_steps, crate::proofs::KindsOf::kinds_of))]
impl Speller {
    fn selector(&mut self, selector: &Selector) -> Result<(), AllocError>
        ensures { OnOk result (self.new.kinds.items ≡ self.old.kinds.items ++ kinds (selector_token selector.now ∷ [])) }
    {
        match selector {
            Selector::Name(name) => self.name(name),
            Selector::Number(value, _) => self.number(*value),
        }
    }

    fn turbofish(&mut self, generics: &Option<Turbofish>) -> Result<(), AllocError>
        ensures { OnOk result (self.new.kinds.items ≡ self.old.kinds.items ++ kinds (flat_option flat_turbofish (option_map turbofish_view generics.now))) }
    {
        match generics {
            None => Ok(()),
            Some(generics) => {
                self.sign(Sign::PathSep)?;
                self.generic_args(generics.args.get())
            }
        }
    }

    // From `new` to the brace.
    fn new_head(&mut self, path: &Path, generics: &Option<Turbofish>) -> Result<(), AllocError>
        ensures { OnOk result (self.new.kinds.items ≡ self.old.kinds.items ++ kind.Word keyword.New ∷ (kinds (flat_path path.now) ++ (kinds (flat_option flat_turbofish (option_map turbofish_view generics.now)) ++ kind.Sign sign.OpenBrace ∷ []))) }
    {
        self.word(Keyword::New)?;
        self.path(path)?;
        self.turbofish(generics)?;
        self.sign(Sign::OpenBrace)
    }

    #[cycle(expr)]
    pub(super) fn expr(&mut self, expr: &Expr) -> Result<(), AllocError>
        ensures { OnOk result (self.new.kinds.items ≡ self.old.kinds.items ++ kinds (flat_expr (expr_view expr.now))) }
    {
        match expr {
            Expr::Number(value, _) => self.number(*value),
            Expr::True(_) => self.word(Keyword::True),
            Expr::False(_) => self.word(Keyword::False),
            Expr::Paren(_, None, _) => {
                self.sign(Sign::OpenParen)?;
                self.sign(Sign::CloseParen)
            }
            Expr::Paren(_, Some(list), _) => {
                self.sign(Sign::OpenParen)?;
                self.expr(&list.get().first)?;
                self.more_parts(list.get().more.as_slice())?;
                self.sign(Sign::CloseParen)
            }
            Expr::New(made) => self.new_struct(made.get()),
            Expr::Path(path) => self.path(path),
            Expr::Call(call) => self.call(call.get()),
            Expr::Field(inner, _, selector) => {
                self.expr(inner.get())?;
                self.sign(Sign::Dot)?;
                self.selector(selector)
            }
            Expr::Unary(op, _, inner) => {
                self.sign(op.sign())?;
                self.expr(inner.get())
            }
            Expr::Binary(left, op, _, right) => {
                self.expr(left.get())?;
                self.sign(op.sign())?;
                self.expr(right.get())
            }
        }
    }

    #[cycle(expr)]
    fn more_parts(&mut self, members: &[Member<Expr>]) -> Result<(), AllocError>
        ensures { OnOk result (self.new.kinds.items ≡ self.old.kinds.items ++ kinds (flat_more_parts (more_parts (map (member_map expr_view) members.now)))) }
    {
        for member in members {
            self.sign(Sign::Comma)?;
            self.expr(&member.value)?;
        }
        Ok(())
    }

    #[cycle(expr)]
    fn call(&mut self, call: &Call) -> Result<(), AllocError>
        ensures { OnOk result (self.new.kinds.items ≡ self.old.kinds.items ++ kinds (flat_expr (call_view call.now))) }
    {
        self.path(&call.path)?;
        self.turbofish(&call.generics)?;
        self.sign(Sign::OpenParen)?;
        match &call.args {
            None => self.sign(Sign::CloseParen),
            Some(list) => {
                self.expr(&list.first)?;
                self.more_parts(list.more.as_slice())?;
                self.sign(Sign::CloseParen)
            }
        }
    }

    #[cycle(expr)]
    fn new_struct(&mut self, made: &New) -> Result<(), AllocError>
        ensures { OnOk result (self.new.kinds.items ≡ self.old.kinds.items ++ kinds (flat_expr (new_view made.now))) }
    {
        self.new_head(&made.path, &made.generics)?;
        match &made.inits {
            None => self.sign(Sign::CloseBrace),
            Some(list) => {
                self.init(&list.first)?;
                self.more_inits(list.more.as_slice())?;
                self.sign(Sign::CloseBrace)
            }
        }
    }

    #[cycle(expr)]
    fn init(&mut self, init: &Init) -> Result<(), AllocError>
        ensures { OnOk result (self.new.kinds.items ≡ self.old.kinds.items ++ kinds (flat_init (init_view init.now))) }
    {
        self.name(&init.name)?;
        self.sign(Sign::Colon)?;
        self.expr(&init.value)
    }

    #[cycle(expr)]
    fn more_inits(&mut self, members: &[Member<Init>]) -> Result<(), AllocError>
        ensures { OnOk result (self.new.kinds.items ≡ self.old.kinds.items ++ kinds (flat_more_inits (more_inits (map (member_map init_view) members.now)))) }
    {
        for member in members {
            self.sign(Sign::Comma)?;
            self.init(&member.value)?;
        }
        Ok(())
    }
}
