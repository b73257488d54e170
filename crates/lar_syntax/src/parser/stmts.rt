//! Statements and blocks, each begun by its word or brace, and else by an expression.
//!
//! A parameter counts the levels that may still be opened. A block within a block costs the frames of `block`, `statement` and the
//! statement's own function, for `if` those of `if_stmt` and `fork`, and no more.

ghost use Rattle.std.specs.Prelude.{◌≡◌, ◌∷◌, ◌++◌, [], ◌≤◌, ◌<◌, length, IfOk, OnOk, false};
ghost use Rattle.lar_tree.specs.declared.keyword.Keyword.TheVariants as keyword;
ghost use Rattle.lar_tree.specs.declared.sign.Sign.TheVariants as sign;
ghost use Rattle.lar_tree.specs.Spelling.{word_token};
ghost use Rattle.lar_grammar.specs.Looks.{look, is_sign};
ghost use Rattle.lar_grammar.specs.Moves as moves;
ghost use Rattle.lar_grammar.specs.Symbols as symbol;
ghost use Rattle.lar_syntax.specs.Reads.{Reads, ReadsOn, block_tokens};
ghost use Rattle.lar_syntax.specs.ReadsExprs.{ReadsTo};
ghost use Rattle.lar_syntax.specs.ReadsStmts.{value_tokens, setting_tokens, asked_tokens, stmt_tokens, if_tokens, else_tokens, IsValue, IsSetting, IsAsked, IsStmt, IsBlock, IsIf, IsElse};

use super::cursor::{Parser, Stop};
use lar_tree::{Asked, Block, Else, Expr, If, Keyword, Kind, Let, Setting, Sign, Span, Stmt};
use sqlite_items::Items;

impl<'a> Parser<'a> {
    /// Reads a block, where so many levels may still be opened.
    #[cycle(stmt)]
    pub(super) fn block(&mut self, levels: u8) -> Result<Block, Stop>
        ensures reads { Reads block_tokens (symbol.one_block levels ∷ []) self.old result self.new }
        ensures grouped { IfOk result (λ b. IsBlock b) }
        ensures shorter { length self.new.rest.now ≤ length self.old.rest.now }
    {
        if levels == 0 {
            return Err(Stop::Syntax);
        }
        let from = self.expect(Sign::OpenBrace)?;
        let mut stmts = Items::new(self.alloc);
        'statements: while !self.sees(Sign::CloseBrace) {
            let stmt = self.statement(levels - 1)?;
            stmts.push(stmt)?;
        }
        let to = self.expect(Sign::CloseBrace)?;
        Ok(Block::new(from, stmts, to))
    }

    /// Reads the next of a block's statements.
    #[cycle(stmt)]
    fn statement(&mut self, levels: u8) -> Result<Stmt, Stop>
        requires { is_sign sign.CloseBrace (look self.old.rest.now) ≡ false }
        ensures reads { ReadsTo stmt_tokens (symbol.statements levels ∷ []) (symbol.statements levels ∷ []) self.old result self.new }
        ensures grouped { IfOk result (λ s. IsStmt s) }
        ensures shorter { length self.new.rest.now ≤ length self.old.rest.now }
        ensures taken { OnOk result (length self.new.rest.now < length self.old.rest.now) }
    {
        match self.peek() {
            Some(Kind::Word(Keyword::Let)) => self.let_stmt(),
            Some(Kind::Word(Keyword::If)) => self.if_stmt(levels),
            Some(Kind::Word(Keyword::While)) => self.while_stmt(levels),
            Some(Kind::Word(Keyword::Return)) => self.return_stmt(),
            Some(Kind::Word(Keyword::Print)) => self.print_stmt(),
            Some(Kind::Word(Keyword::StaticAssert)) => self.assert_stmt(),
            _ => self.expr_stmt(),
        }
    }

    /// Reads `let`, a name, its type and its value.
    fn let_stmt(&mut self) -> Result<Stmt, Stop>
        ensures reads { Reads stmt_tokens (symbol.one_word keyword.Let ∷ moves.let_rest) self.old result self.new }
        ensures grouped { IfOk result (λ s. IsStmt s) }
        ensures shorter { length self.new.rest.now ≤ length self.old.rest.now }
        ensures taken { OnOk result (length self.new.rest.now < length self.old.rest.now) }
    {
        let keyword = self.expect_word(Keyword::Let)?;
        let name = self.name()?;
        let colon = self.expect(Sign::Colon)?;
        let ty = self.outer_ty()?;
        let assign = self.expect(Sign::Assign)?;
        let value = self.outer_expr()?;
        let semicolon = self.expect(Sign::Semicolon)?;
        let local = Let {
            keyword,
            name,
            colon,
            ty,
            assign,
            value,
            semicolon,
        };
        let stmt = Stmt::let_stmt(self.alloc, local)?;
        Ok(stmt)
    }

    /// Reads a statement that is an `if`.
    #[cycle(stmt)]
    fn if_stmt(&mut self, levels: u8) -> Result<Stmt, Stop>
        ensures reads { Reads stmt_tokens (symbol.one_word keyword.If ∷ moves.if_rest levels) self.old result self.new }
        ensures grouped { IfOk result (λ s. IsStmt s) }
        ensures shorter { length self.new.rest.now ≤ length self.old.rest.now }
        ensures taken { OnOk result (length self.new.rest.now < length self.old.rest.now) }
    {
        let fork = self.fork(levels)?;
        let stmt = Stmt::if_stmt(self.alloc, fork)?;
        Ok(stmt)
    }

    /// Reads `if`, its test, its block and the `else` behind it.
    #[cycle(stmt)]
    fn fork(&mut self, levels: u8) -> Result<If, Stop>
        ensures reads { Reads if_tokens (symbol.one_word keyword.If ∷ moves.if_rest levels) self.old result self.new }
        ensures grouped { IfOk result (λ f. IsIf f) }
        ensures shorter { length self.new.rest.now ≤ length self.old.rest.now }
        ensures taken { OnOk result (length self.new.rest.now < length self.old.rest.now) }
    {
        let keyword = self.expect_word(Keyword::If)?;
        let test = self.outer_expr()?;
        let then = self.block(levels)?;
        let other = self.otherwise(levels)?;
        let fork = If::new(self.alloc, keyword, test, then, other)?;
        Ok(fork)
    }

    /// Reads `else` and what stands behind it, or nothing.
    #[cycle(stmt)]
    fn otherwise(&mut self, levels: u8) -> Result<Option<Else>, Stop>
        ensures reads { Reads else_tokens (symbol.else_part levels ∷ []) self.old result self.new }
        ensures grouped { IfOk result (λ e. IsElse e) }
        ensures shorter { length self.new.rest.now ≤ length self.old.rest.now }
    {
        if !self.sees_word(Keyword::Else) {
            return Ok(None);
        }
        let keyword = self.expect_word(Keyword::Else)?;
        if !self.sees_word(Keyword::If) {
            let body = self.block(levels)?;
            return Ok(Some(Else::last(keyword, body)));
        }
        if levels == 0 {
            return Err(Stop::Syntax);
        }
        let fork = self.fork(levels - 1)?;
        Ok(Some(Else::next(keyword, fork)))
    }

    /// Reads `while`, its test and its block.
    #[cycle(stmt)]
    fn while_stmt(&mut self, levels: u8) -> Result<Stmt, Stop>
        ensures reads { Reads stmt_tokens (symbol.one_word keyword.While ∷ moves.while_rest levels) self.old result self.new }
        ensures grouped { IfOk result (λ s. IsStmt s) }
        ensures shorter { length self.new.rest.now ≤ length self.old.rest.now }
        ensures taken { OnOk result (length self.new.rest.now < length self.old.rest.now) }
    {
        let keyword = self.expect_word(Keyword::While)?;
        let test = self.outer_expr()?;
        let body = self.block(levels)?;
        Ok(Stmt::while_stmt(keyword, test, body))
    }

    /// Reads `return` and the value behind it, if there is one.
    fn return_stmt(&mut self) -> Result<Stmt, Stop>
        ensures reads { Reads stmt_tokens (symbol.one_word keyword.Return ∷ symbol.return_rest ∷ []) self.old result self.new }
        ensures grouped { IfOk result (λ s. IsStmt s) }
        ensures shorter { length self.new.rest.now ≤ length self.old.rest.now }
        ensures taken { OnOk result (length self.new.rest.now < length self.old.rest.now) }
    {
        let keyword = self.expect_word(Keyword::Return)?;
        let value = self.returned()?;
        let semicolon = self.expect(Sign::Semicolon)?;
        Ok(Stmt::return_stmt(keyword, value, semicolon))
    }

    /// Reads what stands before the `;` of a `return`.
    fn returned(&mut self) -> Result<Option<Expr>, Stop>
        ensures reads { ReadsTo value_tokens (symbol.return_rest ∷ []) (symbol.one_sign sign.Semicolon ∷ []) self.old result self.new }
        ensures grouped { IfOk result (λ v. IsValue v) }
        ensures shorter { length self.new.rest.now ≤ length self.old.rest.now }
    {
        if self.sees(Sign::Semicolon) {
            return Ok(None);
        }
        let value = self.outer_expr()?;
        Ok(Some(value))
    }

    /// Reads a `print`.
    fn print_stmt(&mut self) -> Result<Stmt, Stop>
        ensures reads { Reads stmt_tokens (symbol.one_word keyword.Print ∷ moves.asked_rest) self.old result self.new }
        ensures grouped { IfOk result (λ s. IsStmt s) }
        ensures shorter { length self.new.rest.now ≤ length self.old.rest.now }
        ensures taken { OnOk result (length self.new.rest.now < length self.old.rest.now) }
    {
        let asked = self.asked(Keyword::Print)?;
        Ok(Stmt::print_stmt(asked))
    }

    /// Reads a `static_assert`.
    fn assert_stmt(&mut self) -> Result<Stmt, Stop>
        ensures reads { Reads stmt_tokens (symbol.one_word keyword.StaticAssert ∷ moves.asked_rest) self.old result self.new }
        ensures grouped { IfOk result (λ s. IsStmt s) }
        ensures shorter { length self.new.rest.now ≤ length self.old.rest.now }
        ensures taken { OnOk result (length self.new.rest.now < length self.old.rest.now) }
    {
        let asked = self.asked(Keyword::StaticAssert)?;
        Ok(Stmt::assert_stmt(asked))
    }

    /// Reads this word and an expression in brackets, up to the `;`.
    fn asked(&mut self, word: Keyword) -> Result<Asked, Stop>
        ensures reads { Reads (asked_tokens word) (symbol.one_word word ∷ moves.asked_rest) self.old result self.new }
        ensures grouped { IfOk result (λ a. IsAsked a) }
        ensures shorter { length self.new.rest.now ≤ length self.old.rest.now }
        ensures taken { OnOk result (length self.new.rest.now < length self.old.rest.now) }
    {
        let keyword = self.expect_word(word)?;
        let open = self.expect(Sign::OpenParen)?;
        let value = self.outer_expr()?;
        let close = self.expect(Sign::CloseParen)?;
        let semicolon = self.expect(Sign::Semicolon)?;
        Ok(Asked {
            keyword,
            open,
            value,
            close,
            semicolon,
        })
    }

    /// Reads an expression and what it is set to, if that follows.
    fn expr_stmt(&mut self) -> Result<Stmt, Stop>
        ensures reads { Reads stmt_tokens (symbol.outer_expr ∷ symbol.setting_rest ∷ []) self.old result self.new }
        ensures grouped { IfOk result (λ s. IsStmt s) }
        ensures shorter { length self.new.rest.now ≤ length self.old.rest.now }
        ensures taken { OnOk result (length self.new.rest.now < length self.old.rest.now) }
    {
        let value = self.outer_expr()?;
        let setting = self.setting()?;
        let semicolon = self.expect(Sign::Semicolon)?;
        let stmt = Stmt::expr_stmt(self.alloc, value, setting, semicolon)?;
        Ok(stmt)
    }

    /// Reads `=` and an expression, or nothing.
    fn setting(&mut self) -> Result<Option<Setting>, Stop>
        ensures reads { ReadsTo setting_tokens (symbol.setting_rest ∷ []) (symbol.one_sign sign.Semicolon ∷ []) self.old result self.new }
        ensures grouped { IfOk result (λ s. IsSetting s) }
        ensures shorter { length self.new.rest.now ≤ length self.old.rest.now }
    {
        if !self.sees(Sign::Assign) {
            return Ok(None);
        }
        let assign = self.expect(Sign::Assign)?;
        let value = self.outer_expr()?;
        Ok(Some(Setting { assign, value }))
    }
}
