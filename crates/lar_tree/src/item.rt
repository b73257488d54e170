ghost use Rattle.std.specs.Prelude.{◌≡◌};
ghost use Rattle.std.specs.Str.{IsAscii};
ghost use Rattle.lar_tree.specs.Items as plain;
ghost use Rattle.lar_tree.specs.ItemView as view;

use crate::{Block, Commas, Name, SignedNumber, Span, Text, Ty};
use sqlite_items::Items;

/// A source file's items.
#[derive(Drop)]
pub struct Tree {
    /// The file's name.
    pub file: Text,
    pub items: Items<Item>,
}

#[cycle(items)]
#[derive(Drop)]
pub enum Item {
    Mod(Mod),
    Struct(Struct),
    Const(Const),
    Fn(Fn),
}

#[cycle(items)]
#[derive(Drop)]
pub struct Mod {
    pub keyword: Span,
    pub name: Name,
    pub open: Span,
    pub items: Items<Item>,
    pub close: Span,
}

/// A list in angle brackets.
#[derive(Drop)]
pub struct Angled<T> {
    pub open: Span,
    pub list: Commas<T>,
    pub close: Span,
}

#[derive(Drop)]
pub struct Struct {
    pub keyword: Span,
    pub name: Name,
    pub generics: Option<Angled<Name>>,
    pub open: Span,
    pub fields: Option<Commas<Field>>,
    pub close: Span,
}

/// A name and its type: a struct's field or a function's parameter.
#[derive(Drop)]
pub struct Field {
    pub name: Name,
    pub colon: Span,
    pub ty: Ty,
}

#[derive(Drop)]
pub struct Const {
    pub keyword: Span,
    pub name: Name,
    pub colon: Span,
    pub int: Span,
    pub assign: Span,
    pub value: SignedNumber,
    pub semicolon: Span,
}

#[derive(Drop)]
pub struct Fn {
    pub attributes: Items<Attribute>,
    pub keyword: Span,
    pub name: Name,
    pub generics: Option<Angled<Generic>>,
    pub open: Span,
    pub params: Option<Commas<Field>>,
    pub close: Span,
    pub output: Option<Output>,
    pub body: Block,
}

#[derive(Drop)]
pub struct Attribute {
    pub hash: Span,
    pub open: Span,
    pub word: AttributeWord,
    pub span: Span,
    pub close: Span,
}

#[derive(Clone, Copy, Debug, PartialEq, Eq)]
pub enum AttributeWord {
    Inline,
    Export,
}

impl AttributeWord {
    /// How it is spelled. The words are plain names elsewhere.
    pub fn spelling(self) -> &'static str
        ensures spelling { result.now ≡ plain.attribute_name self }
        ensures ascii { IsAscii result.now }
    {
        match self {
            AttributeWord::Inline => "inline",
            AttributeWord::Export => "export",
        }
    }
}

/// A generic of a function.
#[derive(Drop)]
pub enum Generic {
    Ty(Name),
    Const(ConstGeneric),
}

#[derive(Drop)]
pub struct ConstGeneric {
    pub keyword: Span,
    pub name: Name,
    pub colon: Span,
    pub int: Span,
}

/// The type of a function's result.
#[derive(Drop)]
pub struct Output {
    pub arrow: Span,
    pub ty: Ty,
}

impl Mod {
    pub fn new(keyword: Span, name: Name, from: Span, items: Items<Item>, to: Span) -> Mod
        ensures { view.module_view result ≡ plain.module_item keyword name from (view.items_view items) to }
    {
        Mod {
            keyword,
            name,
            open: from,
            items,
            close: to,
        }
    }
}

impl Item {
    pub fn module_item(made: Mod) -> Item
        ensures { view.item_view result ≡ view.module_view made }
    {
        Item::Mod(made)
    }

    pub fn struct_item(made: Struct) -> Item
        ensures { view.item_view result ≡ plain.struct_item (view.struct_view made) }
    {
        Item::Struct(made)
    }

    pub fn const_item(made: Const) -> Item
        ensures { view.item_view result ≡ plain.const_item made }
    {
        Item::Const(made)
    }

    pub fn fn_item(made: Fn) -> Item
        ensures { view.item_view result ≡ plain.fn_item (view.fn_view made) }
    {
        Item::Fn(made)
    }
}
