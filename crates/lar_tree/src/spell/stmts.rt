// Statements and blocks.
ghost use Rattle.std.specs.Prelude.{◌≡◌, ◌++◌, ◌∷◌, [], OnOk, option_map};
ghost use Rattle.lar_tree.specs.declared.keyword.Keyword.TheVariants as keyword;
ghost use Rattle.lar_tree.specs.Spelling.{kinds, flat_option};
ghost use Rattle.lar_tree.specs.Exprs.{flat_expr};
ghost use Rattle.lar_tree.specs.ExprView.{expr_view};
ghost use Rattle.lar_tree.specs.Stmts.{flat_let, flat_asked, flat_setting, flat_stmt, flat_stmts, flat_block, flat_if, flat_else};
ghost use Rattle.lar_tree.specs.StmtView.{let_view, asked_view, setting_view, stmt_view, stmts_view, block_view, if_view, else_view, else_of};

use super::Speller;
use crate::{Asked, Block, Else, Expr, If, Keyword, Let, Setting, Sign, Stmt};
use sqlite_items::Boxed;
use std::alloc::AllocError;

#[tactic(auto, using(std::proofs::lemmas::Grind::common_steps, crate::proofs::KindsOf::kinds_of))]
impl Speller {
    fn let_stmt(&mut self, local: &Let) -> Result<(), AllocError>
        ensures { OnOk result (self.new.kinds.items ≡ self.old.kinds.items ++ kinds (flat_let (let_view local.now))) }
    {
        self.word(Keyword::Let)?;
        self.name(&local.name)?;
        self.sign(Sign::Colon)?;
        self.ty(&local.ty)?;
        self.sign(Sign::Assign)?;
        self.expr(&local.value)?;
        self.sign(Sign::Semicolon)
    }

    fn asked(&mut self, word: Keyword, asked: &Asked) -> Result<(), AllocError>
        ensures { OnOk result (self.new.kinds.items ≡ self.old.kinds.items ++ kinds (flat_asked word (asked_view asked.now))) }
    {
        self.word(word)?;
        self.sign(Sign::OpenParen)?;
        self.expr(&asked.value)?;
        self.sign(Sign::CloseParen)?;
        self.sign(Sign::Semicolon)
    }

    fn value(&mut self, value: &Option<Expr>) -> Result<(), AllocError>
        ensures { OnOk result (self.new.kinds.items ≡ self.old.kinds.items ++ kinds (flat_option flat_expr (option_map expr_view value.now))) }
    {
        match value {
            None => Ok(()),
            Some(value) => self.expr(value),
        }
    }

    fn setting(&mut self, setting: &Option<Boxed<Setting>>) -> Result<(), AllocError>
        ensures { OnOk result (self.new.kinds.items ≡ self.old.kinds.items ++ kinds (flat_option flat_setting (option_map setting_view setting.now))) }
    {
        match setting {
            None => Ok(()),
            Some(setting) => {
                self.sign(Sign::Assign)?;
                self.expr(&setting.get().value)
            }
        }
    }

    #[cycle(stmt)]
    fn stmt(&mut self, stmt: &Stmt) -> Result<(), AllocError>
        ensures { OnOk result (self.new.kinds.items ≡ self.old.kinds.items ++ kinds (flat_stmt (stmt_view stmt.now))) }
    {
        match stmt {
            Stmt::Let(local) => self.let_stmt(local.get()),
            Stmt::If(fork) => self.if_stmt(fork.get()),
            Stmt::While(_, test, body) => {
                self.word(Keyword::While)?;
                self.expr(test)?;
                self.block(body)
            }
            Stmt::Return(_, value, _) => {
                self.word(Keyword::Return)?;
                self.value(value)?;
                self.sign(Sign::Semicolon)
            }
            Stmt::Print(asked) => self.asked(Keyword::Print, asked),
            Stmt::StaticAssert(asked) => self.asked(Keyword::StaticAssert, asked),
            Stmt::Expr(value, setting, _) => {
                self.expr(value)?;
                self.setting(setting)?;
                self.sign(Sign::Semicolon)
            }
        }
    }

    #[cycle(stmt)]
    fn stmts(&mut self, stmts: &[Stmt]) -> Result<(), AllocError>
        ensures { OnOk result (self.new.kinds.items ≡ self.old.kinds.items ++ kinds (flat_stmts (stmts_view stmts.now))) }
    {
        for stmt in stmts {
            self.stmt(stmt)?;
        }
        Ok(())
    }

    #[cycle(stmt)]
    pub(super) fn block(&mut self, block: &Block) -> Result<(), AllocError>
        ensures { OnOk result (self.new.kinds.items ≡ self.old.kinds.items ++ kinds (flat_block (block_view block.now))) }
    {
        self.sign(Sign::OpenBrace)?;
        self.stmts(block.stmts.as_slice())?;
        self.sign(Sign::CloseBrace)
    }

    #[cycle(stmt)]
    fn if_stmt(&mut self, fork: &If) -> Result<(), AllocError>
        ensures { OnOk result (self.new.kinds.items ≡ self.old.kinds.items ++ kinds (flat_if (if_view fork.now))) }
    {
        self.word(Keyword::If)?;
        self.expr(&fork.test)?;
        self.block(&fork.then)?;
        self.other(&fork.other)
    }

    #[cycle(stmt)]
    fn other(&mut self, other: &Option<Boxed<Else>>) -> Result<(), AllocError>
        ensures { OnOk result (self.new.kinds.items ≡ self.old.kinds.items ++ kinds (flat_else (else_of (option_map else_view other.now)))) }
    {
        match other {
            None => Ok(()),
            Some(other) => self.else_part(other.get()),
        }
    }

    #[cycle(stmt)]
    fn else_part(&mut self, other: &Else) -> Result<(), AllocError>
        ensures { OnOk result (self.new.kinds.items ≡ self.old.kinds.items ++ kinds (flat_else (else_view other.now))) }
    {
        self.word(Keyword::Else)?;
        match other {
            Else::Last(_, body) => self.block(body),
            Else::Next(_, fork) => self.if_stmt(fork),
        }
    }
}
