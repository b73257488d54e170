//! Items: modules, structs, constants and functions.

ghost use Rattle.std.specs.Prelude.{◌≡◌, ◌∷◌, ◌++◌, [], ◌≤◌, ◌<◌, length, IfOk, OnOk, None};
ghost use Rattle.lar_tree.specs.Spelling.{sign_token, word_token, name_token};
ghost use Rattle.lar_tree.specs.Items.{flat_attribute, flat_attributes, flat_const, GroupedItem, GroupedItems};
ghost use Rattle.lar_tree.specs.ItemView.{item_view, items_view};
ghost use Rattle.lar_tree.specs.declared.sign.Sign.TheVariants as sign;
ghost use Rattle.lar_tree.specs.declared.keyword.Keyword.TheVariants as word;
ghost use Rattle.lar_grammar.specs.Looks as looks;
ghost use Rattle.lar_grammar.specs.Symbols as symbol;
ghost use Rattle.lar_grammar.specs.Moves as moves;
ghost use Rattle.lar_syntax.specs.Reads.{Reads, ReadsOn};
ghost use Rattle.lar_syntax.specs.ReadsItems.{word_at_tokens, output_tokens, struct_tokens, fn_tokens, item_tokens, items_tokens, signature, IsFn, ReadsItem};

use super::cursor::{Parser, Stop};
use lar_tree::{
    Attribute, AttributeWord, Const, Fn, Item, Keyword, Kind, Mod, Name, Output, Sign, Span, Struct,
};
use sqlite_items::Items;

/// The word that a name spells between an attribute's brackets, if it does.
fn word_of(name: &str) -> Option<AttributeWord>
    ensures { result ≡ looks.word_of name.now }
{
    if name == AttributeWord::Inline.spelling() {
        return Some(AttributeWord::Inline);
    }
    if name == AttributeWord::Export.spelling() {
        return Some(AttributeWord::Export);
    }
    None
}

impl<'a> Parser<'a> {
    /// Reads items up to the end of the tokens.
    pub(super) fn program(&mut self) -> Result<Items<Item>, Stop>
        ensures reads { Reads items_tokens (symbol.program ∷ []) self.old result self.new }
        ensures grouped { IfOk result (λ is. GroupedItems (items_view is)) }
        ensures ended { OnOk result (looks.look self.new.rest.now ≡ None) }
    {
        let mut found = Items::new(self.alloc);
        'items: while let Some(_) = self.peek() {
            let item = self.item(64)?;
            found.push(item)?;
        }
        Ok(found)
    }

    /// Reads items up to the brace that closes them, where so many modules may still be opened.
    #[cycle(items)]
    fn items(&mut self, levels: u8) -> Result<Items<Item>, Stop>
        ensures reads { Reads items_tokens (symbol.module_items levels ∷ []) self.old result self.new }
        ensures grouped { IfOk result (λ is. GroupedItems (items_view is)) }
        ensures shorter { length self.new.rest.now ≤ length self.old.rest.now }
    {
        let mut found = Items::new(self.alloc);
        'items: while !self.sees(Sign::CloseBrace) {
            let item = self.item(levels)?;
            found.push(item)?;
        }
        Ok(found)
    }

    /// Reads an item, where so many modules or blocks may still be opened.
    #[cycle(items)]
    fn item(&mut self, levels: u8) -> Result<Item, Stop>
        ensures reads { ReadsItem levels self.old result self.new }
        ensures grouped { IfOk result (λ i. GroupedItem (item_view i)) }
        ensures shorter { length self.new.rest.now ≤ length self.old.rest.now }
        ensures taken { OnOk result (length self.new.rest.now < length self.old.rest.now) }
    {
        if self.sees_word(Keyword::Mod) {
            return self.module(levels);
        }
        if self.sees_word(Keyword::Struct) {
            return self.structure();
        }
        if self.sees_word(Keyword::Const) {
            return self.constant();
        }
        self.function(levels)
    }

    /// Reads a module.
    #[cycle(items)]
    fn module(&mut self, levels: u8) -> Result<Item, Stop>
        ensures reads { Reads item_tokens (symbol.one_word word.Mod ∷ symbol.one_name ∷ symbol.body levels ∷ []) self.old result self.new }
        ensures grouped { IfOk result (λ i. GroupedItem (item_view i)) }
        ensures shorter { length self.new.rest.now ≤ length self.old.rest.now }
        ensures taken { OnOk result (length self.new.rest.now < length self.old.rest.now) }
    {
        let keyword = self.expect_word(Keyword::Mod)?;
        let name = self.name()?;
        if levels == 0 {
            return Err(Stop::Syntax);
        }
        let open = self.expect(Sign::OpenBrace)?;
        let items = self.items(levels - 1)?;
        let close = self.expect(Sign::CloseBrace)?;
        let made = Mod::new(keyword, name, open, items, close);
        Ok(Item::module_item(made))
    }

    /// Reads a struct.
    fn structure(&mut self) -> Result<Item, Stop>
        ensures reads { Reads item_tokens (symbol.one_word word.Struct ∷ moves.struct_rest) self.old result self.new }
        ensures grouped { IfOk result (λ i. GroupedItem (item_view i)) }
        ensures shorter { length self.new.rest.now ≤ length self.old.rest.now }
        ensures taken { OnOk result (length self.new.rest.now < length self.old.rest.now) }
    {
        let keyword = self.expect_word(Keyword::Struct)?;
        let made = self.struct_rest(keyword)?;
        Ok(Item::struct_item(made))
    }

    /// Reads what stands behind the word of a struct.
    fn struct_rest(&mut self, keyword: Span) -> Result<Struct, Stop>
        ensures reads { ReadsOn (word_token word.Struct keyword ∷ []) struct_tokens moves.struct_rest self.old result self.new }
        ensures shorter { length self.new.rest.now ≤ length self.old.rest.now }
    {
        let name = self.name()?;
        let generics = self.angled_names()?;
        let open = self.expect(Sign::OpenBrace)?;
        let fields = self.listed_fields(63, Sign::CloseBrace)?;
        let close = self.expect(Sign::CloseBrace)?;
        Ok(Struct {
            keyword,
            name,
            generics,
            open,
            fields,
            close,
        })
    }

    /// Reads a constant.
    fn constant(&mut self) -> Result<Item, Stop>
        ensures reads { Reads item_tokens (symbol.one_word word.Const ∷ moves.const_rest) self.old result self.new }
        ensures grouped { IfOk result (λ i. GroupedItem (item_view i)) }
        ensures shorter { length self.new.rest.now ≤ length self.old.rest.now }
        ensures taken { OnOk result (length self.new.rest.now < length self.old.rest.now) }
    {
        let keyword = self.expect_word(Keyword::Const)?;
        let made = self.const_rest(keyword)?;
        Ok(Item::const_item(made))
    }

    /// Reads what stands behind the word of a constant.
    fn const_rest(&mut self, keyword: Span) -> Result<Const, Stop>
        ensures reads { ReadsOn (word_token word.Const keyword ∷ []) flat_const moves.const_rest self.old result self.new }
        ensures shorter { length self.new.rest.now ≤ length self.old.rest.now }
    {
        let name = self.name()?;
        let colon = self.expect(Sign::Colon)?;
        let int = self.expect_word(Keyword::I64)?;
        let assign = self.expect(Sign::Assign)?;
        let value = self.signed_number()?;
        let semicolon = self.expect(Sign::Semicolon)?;
        Ok(Const {
            keyword,
            name,
            colon,
            int,
            assign,
            value,
            semicolon,
        })
    }

    /// Reads a function with its attributes.
    fn function(&mut self, levels: u8) -> Result<Item, Stop>
        ensures reads { Reads item_tokens (symbol.attributed levels ∷ []) self.old result self.new }
        ensures grouped { IfOk result (λ i. GroupedItem (item_view i)) }
        ensures shorter { length self.new.rest.now ≤ length self.old.rest.now }
        ensures taken { OnOk result (length self.new.rest.now < length self.old.rest.now) }
    {
        let mut attributes = Items::new(self.alloc);
        'attributes: while self.sees(Sign::Hash) {
            let hash = self.advance()?;
            let attribute = self.attribute_rest(hash)?;
            attributes.push(attribute)?;
        }
        self.plain_function(attributes, levels)
    }

    /// Reads what stands behind the `#` of an attribute.
    fn attribute_rest(&mut self, hash: Span) -> Result<Attribute, Stop>
        ensures reads { ReadsOn (sign_token sign.Hash hash ∷ []) flat_attribute (symbol.one_sign sign.OpenBracket ∷ symbol.attribute_word ∷ symbol.one_sign sign.CloseBracket ∷ []) self.old result self.new }
        ensures shorter { length self.new.rest.now ≤ length self.old.rest.now }
    {
        let open = self.expect(Sign::OpenBracket)?;
        let (word, span) = self.attribute_word()?;
        let close = self.expect(Sign::CloseBracket)?;
        Ok(Attribute {
            hash,
            open,
            word,
            span,
            close,
        })
    }

    /// Reads the word of an attribute, with the place where it stands.
    fn attribute_word(&mut self) -> Result<(AttributeWord, Span), Stop>
        ensures reads { Reads word_at_tokens (symbol.attribute_word ∷ []) self.old result self.new }
        ensures shorter { length self.new.rest.now ≤ length self.old.rest.now }
    {
        let Some(Kind::Name(text)) = self.peek() else {
            return Err(Stop::Syntax);
        };
        let Some(word) = word_of(text.as_str()) else {
            return Err(Stop::Syntax);
        };
        let span = self.advance()?;
        Ok((word, span))
    }

    /// Reads a function behind its attributes.
    fn plain_function(&mut self, attributes: Items<Attribute>, levels: u8) -> Result<Item, Stop>
        ensures reads { ReadsOn (flat_attributes attributes) item_tokens (symbol.one_word word.Fn ∷ moves.fn_rest levels) self.old result self.new }
        ensures grouped { IfOk result (λ i. GroupedItem (item_view i)) }
        ensures shorter { length self.new.rest.now ≤ length self.old.rest.now }
        ensures taken { OnOk result (length self.new.rest.now < length self.old.rest.now) }
    {
        let keyword = self.expect_word(Keyword::Fn)?;
        let name = self.name()?;
        let made = self.fn_rest(attributes, keyword, name, levels)?;
        Ok(Item::fn_item(made))
    }

    /// Reads what stands behind the name of a function.
    fn fn_rest(
        &mut self,
        attributes: Items<Attribute>,
        keyword: Span,
        name: Name,
        levels: u8,
    ) -> Result<Fn, Stop>
        ensures reads { ReadsOn (flat_attributes attributes ++ word_token word.Fn keyword ∷ name_token name ∷ []) fn_tokens (signature levels) self.old result self.new }
        ensures grouped { IfOk result IsFn }
        ensures shorter { length self.new.rest.now ≤ length self.old.rest.now }
    {
        let generics = self.angled_generics()?;
        let open = self.expect(Sign::OpenParen)?;
        let params = self.listed_fields(15, Sign::CloseParen)?;
        let close = self.expect(Sign::CloseParen)?;
        let output = self.output()?;
        let body = self.block(levels)?;
        Ok(Fn {
            attributes,
            keyword,
            name,
            generics,
            open,
            params,
            close,
            output,
            body,
        })
    }

    /// Reads the type of a function's result, if there is one.
    fn output(&mut self) -> Result<Option<Output>, Stop>
        ensures reads { Reads output_tokens (symbol.output ∷ []) self.old result self.new }
        ensures shorter { length self.new.rest.now ≤ length self.old.rest.now }
    {
        if !self.sees(Sign::Arrow) {
            return Ok(None);
        }
        let arrow = self.advance()?;
        let ty = self.outer_ty()?;
        Ok(Some(Output { arrow, ty }))
    }
}
