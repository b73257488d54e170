//! The locals of a body.
ghost use Rattle.std.specs.Prelude.{◌≡◌, ◌∷◌, ◌++◌, [], length, OnOk};

use lar_judge::{Local, Locals};
use lar_source::Text;
use std::alloc::{AllocError, Global};

/// The locals in scope, and the types of all locals so far by number, where they are known.
#[derive(Drop)]
pub struct State<'a> {
    pub locals: Locals<'a>,
    pub types: Vec<Option<usize>>,
}

impl<'a> State<'a> {
    /// No local yet.
    pub fn new(alloc: Global) -> State<'a>
        ensures locals { result.locals.locals.items ≡ [] }
        ensures types { result.types.items ≡ [] }
    {
        State {
            locals: Locals::new(alloc),
            types: Vec::new(alloc),
        }
    }

    /// How many locals there are so far, which is the number of the next one.
    pub fn count(&self) -> usize
        ensures { result ≡ length self.now.types.items }
    {
        self.types.len()
    }

    /// A local with the next number, which hides all others of its name.
    pub fn declare(&mut self, name: &'a Text, of: Option<usize>) -> Result<(), AllocError>
        ensures locals { OnOk result (self.new.locals.locals.items ≡ self.old.locals.locals.items ++ record { name = name.entry; number = length self.old.types.items; of = of } ∷ []) }
        ensures types { OnOk result (self.new.types.items ≡ self.old.types.items ++ of ∷ []) }
    {
        let number = self.count();
        self.locals.declare(Local { name, number, of })?;
        self.types.push(of)?;
        Ok(())
    }
}
