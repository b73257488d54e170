//! Functions, constants and whole programs.
use crate::TypedStmt;
use lar_bytes::Text;
use lar_source::Span;
use sqlite_items::Items;
use std::alloc::AllocError;
use std::marker::Model;
use type_table::{Row, Sort, StructDecl, Types};

/// A constant.
#[derive(Debug, Drop)]
pub struct TypedConst {
    /// The names of the modules that it stands in, joined with `::`.
    pub module: Text,
    pub name: Text,
    pub value: i64,
}

/// A function.
#[derive(Drop)]
pub struct TypedFunction {
    /// The names of the modules that it stands in, joined with `::`.
    pub module: Text,
    pub name: Text,
    pub generics: Items<Sort>,
    /// How many of the locals are parameters; these come first.
    pub params: usize,
    /// The type of each local by its number, as the number of a row.
    pub locals: Items<usize>,
    /// The type of the result, as the number of a row.
    pub outcome: usize,
    pub body: Items<TypedStmt>,
    /// Whether it has `#[inline]`.
    pub inlined: bool,
    /// Whether it has `#[export]`.
    pub exported: bool,
    /// Where its name stands.
    pub at: Span,
}

/// A program whose names and types are right. Its types are rows of a table of its own, which only grows.
#[derive(Drop)]
pub struct TypedTree {
    types: Types,
    structs: Items<StructDecl>,
    consts: Items<TypedConst>,
    functions: Items<TypedFunction>,
}

impl Model for TypedTree {
    ghost use Rattle.lar_typed.specs.TreeView.{Contents, contents, IsTypedTree};
    ghost use Rattle.lar_typed.specs.contracts.stmt.TypedStmt as stmt;
    ghost use Rattle.std.specs.Coded.{codes};

    ghost Value = { Contents };

    ghost coded = { Prim.hlevel (codes, stmt.the_row.coded) };

    ghost view = { λ t. contents t.types t.structs t.consts t.functions };

    ghost invariant = { λ t. IsTypedTree (contents t.types t.structs t.consts t.functions) };
}

impl TypedTree {
    ghost use Rattle.std.specs.Prelude.{◌≡◌, ◌<◌, length, IfOk};
    ghost use Rattle.type_table.specs.Rows.{Names, Keeps, Stands, type_at, type_of, types};
    ghost use Rattle.type_table.specs.Substitution.{subst};
    ghost use Rattle.lar_typed.specs.TreeView.{contents, plain, IsTypedTree};

    /// The program of these parts, which keeps its facts.
    pub fn new(
        types: Types,
        structs: Items<StructDecl>,
        consts: Items<TypedConst>,
        functions: Items<TypedFunction>,
    ) -> TypedTree
        requires { IsTypedTree (contents types structs consts functions) }
        ensures { result ≡ contents types structs consts functions }
    {
        TypedTree {
            types,
            structs,
            consts,
            functions,
        }
    }

    /// The types, by number.
    pub fn types(&self) -> &Types
        ensures rows { result.now ≡ self.now.rows }
        ensures facts { IsTypedTree self.now }
    {
        &self.types
    }

    /// The structs, in reading order.
    pub fn structs(&self) -> &[StructDecl]
        ensures structs { result.now ≡ self.now.structs }
        ensures facts { IsTypedTree self.now }
    {
        self.structs.as_slice()
    }

    /// The constants, in reading order.
    pub fn consts(&self) -> &[TypedConst]
        ensures consts { result.now ≡ self.now.consts }
        ensures facts { IsTypedTree self.now }
    {
        self.consts.as_slice()
    }

    /// The functions, in reading order.
    pub fn functions(&self) -> &[TypedFunction]
        ensures functions { result.now ≡ self.now.functions }
        ensures facts { IsTypedTree self.now }
    {
        self.functions.as_slice()
    }

    /// The number of a row, which is added where it is new.
    pub fn intern(&mut self, row: Row) -> Result<usize, AllocError>
        requires { Names (length self.old.rows) row }
        ensures kept { Keeps self.old.rows self.new.rows }
        ensures number { IfOk result (λ n. Stands self.new.rows n (type_of (types self.old.rows) row)) }
        ensures rest { self.new ≡ contents self.new.rows self.old.structs self.old.consts self.old.functions }
        ensures program { plain self.new ≡ plain self.old }
    {
        self.types.intern(row)
    }

    /// The type with the arguments in place of its generics. No type is gone into twice for the same arguments.
    pub fn substitute(&mut self, ty: usize, arguments: usize) -> Result<usize, AllocError>
        requires ty { ty < length self.old.rows }
        requires arguments { arguments < length self.old.rows }
        ensures kept { Keeps self.old.rows self.new.rows }
        ensures number { IfOk result (λ n. Stands self.new.rows n (subst (type_at self.old.rows arguments) (type_at self.old.rows ty))) }
        ensures rest { self.new ≡ contents self.new.rows self.old.structs self.old.consts self.old.functions }
        ensures program { plain self.new ≡ plain self.old }
    {
        self.types.substitute(ty, arguments)
    }
}
