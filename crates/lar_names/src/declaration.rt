//! An item where it is declared.
ghost use Rattle.std.specs.Prelude.{◌≡◌};
ghost use Rattle.lar_names.specs.Declarations.{what_name};

use lar_tree::{Const, Fn, Mod, Name, Struct};

/// What is declared.
#[derive(Clone, Copy, Drop)]
pub enum What<'a> {
    Module(&'a Mod),
    Struct(&'a Struct),
    Const(&'a Const),
    Function(&'a Fn),
}

/// An item, with the number of its file among the sources, the number of the scope in which it stands, and whether it is
/// hidden: in a module whose name an earlier item has, so that no path leads to it.
#[derive(Clone, Copy, Drop)]
pub struct Declaration<'a> {
    pub file: usize,
    pub scope: usize,
    pub hidden: bool,
    pub what: What<'a>,
}

impl<'a> Declaration<'a> {
    /// The item's name.
    pub fn name(&self) -> &'a Name
        ensures { result.now ≡ what_name self.now.what }
    {
        match self.what {
            What::Module(made) => &made.name,
            What::Struct(made) => &made.name,
            What::Const(made) => &made.name,
            What::Function(made) => &made.name,
        }
    }
}
