//! All that is kept of what the sources declare.
ghost use Rattle.std.specs.Prelude.{length, map};
ghost use Rattle.lar_names.specs.Indexed.{AreEntries, AreItems, AreWithin};
ghost use Rattle.lar_names.specs.Declarations.{declared_view};

use crate::{ConstItem, Declaration, FunctionItem, Meaning, Scopes, StructItem, Tables};

/// What the sources declare, in reading order, and what each name means.
#[derive(Drop)]
pub struct Names<'a> {
    pub(crate) scopes: Scopes,
    pub(crate) declared: Vec<Declaration<'a>>,
    pub(crate) structs: Vec<StructItem<'a>>,
    pub(crate) consts: Vec<ConstItem<'a>>,
    pub(crate) functions: Vec<FunctionItem<'a>>,
    pub(crate) known: Tables<Option<Meaning>>,
    ghost scoped: { AreWithin (length scopes) declared.items },
    ghost entries: { AreEntries scopes known.maps.items (map (declared_view scopes) declared.items) },
    ghost items: { AreItems structs.items consts.items functions.items declared.items },
}
