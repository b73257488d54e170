//! Items of one kind, each where it is declared.
use lar_tree::{Const, Fn, Struct};

/// A struct, with the number of its file, the number of its scope, and whether it is hidden.
#[derive(Clone, Copy, Drop)]
pub struct StructItem<'a> {
    pub file: usize,
    pub scope: usize,
    pub hidden: bool,
    pub it: &'a Struct,
}

/// A constant, with the number of its file, the number of its scope, and whether it is hidden.
#[derive(Clone, Copy, Drop)]
pub struct ConstItem<'a> {
    pub file: usize,
    pub scope: usize,
    pub hidden: bool,
    pub it: &'a Const,
}

/// A function, with the number of its file, the number of its scope, and whether it is hidden.
#[derive(Clone, Copy, Drop)]
pub struct FunctionItem<'a> {
    pub file: usize,
    pub scope: usize,
    pub hidden: bool,
    pub it: &'a Fn,
}
