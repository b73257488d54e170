//! Handles on the shared table.
ghost use Rattle.std.specs.Prelude.{◌≡◌, IfOk, [], ◌∷◌};
ghost use Rattle.lease_table.specs.View.{opened};

use crate::steps::{LeaseRule, Words};
use crate::view::View;
use atomic_table::{Seat, Shared};
use std::alloc::{AllocError, Global};
use std::marker::Model;
use std::sync::Arc;

/// A handle on a desk's table. It tells contracts which table that is, and no step can be made with
/// it. No contract calls the tables of two desks equal.
#[derive(Drop)]
pub struct Mark {
    table: Arc<Words>,
}

impl Model for Mark {
    ghost use Rattle.std.specs.Arc.{arc_value};
    ghost use Rattle.atomic_table.specs.Seated.{TableId, table_id_coded};

    ghost Value = { TableId };

    ghost coded = { table_id_coded };

    ghost view = { λ m. (arc_value m.table).shared.table_id };
}

impl Mark {
    /// A new table with both words 0, and the desk's seat at it.
    pub(crate) fn open(alloc: Global) -> Result<(Mark, Seat<(), View>), AllocError>
        ensures { IfOk result (λ r. (r.0.words ≡ 2) × (r.1.table_id ≡ r.0) × (r.1.me ≡ (opened, []))) }
    {
        let (table, seat) = Words::of_words(alloc, &[0, 0], &())?;
        let table = Arc::new(alloc, table)?;
        Ok((Mark { table }, seat))
    }

    pub(crate) fn again(&self) -> Result<Mark, AllocError>
        ensures { IfOk result (λ m. m ≡ self.now) }
    {
        Ok(Mark {
            table: Arc::try_clone(&self.table)?,
        })
    }

    pub(crate) fn shared(&self) -> &Shared<(), View, (), LeaseRule>
        ensures { result.now.table_id ≡ self.now }
    {
        &self.table.shared
    }
}
