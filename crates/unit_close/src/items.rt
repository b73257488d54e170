//! What becomes of the items of a unit: its functions, and what it knows of functions of other units.
ghost use Rattle.std.specs.Prelude.{◌≡◌, ◌<◌, length, IfOk};
ghost use Rattle.unit_input.specs.InputView.{external_view, fn_view};
ghost use Rattle.closed_input.specs.Held.{IsHeldExternal, IsHeldFn};
ghost use Rattle.closed_input.specs.Unit.{closed_item, known_item};
ghost use Rattle.unit_close.specs.Items.{named_in, IsClosing, AreNumbers};

use crate::around::Around;
use crate::function::{close_function, short_enough};
use crate::measure::Measure;
use crate::numbers::numbers_of;
use lar_typed::TypedTree;
use mono_items::{MonoItem, symbol};
use std::alloc::{AllocError, Global};
use unit_input::{ExternalFn, UnitFn};

/// What is at hand of a unit: the tree with the forms of its rows, the items of the graph, and the places of those that the unit's
/// calls may name, in the order of the numbers.
#[derive(Drop)]
pub struct Closing<'a> {
    pub tree: &'a TypedTree,
    /// The form of each row, as `type_widths::forms` makes them.
    pub forms: &'a [Vec<u16>],
    pub items: &'a [MonoItem],
    pub named: &'a [usize],
}

impl<'a> Closing<'a> {
    /// What becomes of the item at a place. `calls` are the numbers of its calls, in reading order; `external` says whether
    /// other units may call it.
    pub fn close_item(
        &self,
        alloc: Global,
        place: usize,
        calls: &[u32],
        external: bool,
    ) -> Result<UnitFn, AllocError>
        requires closing { IsClosing self.now }
        requires place { place < length self.now.items.now }
        requires calls { AreNumbers self.now place calls.now }
        ensures is { IfOk result (λ f. fn_view f ≡ closed_item self.now.tree.now self.now.items.now (named_in self.now) external place) }
        ensures held { IfOk result (λ f. IsHeldFn (fn_view f)) }
    {
        let instance = self.items[place].instance;
        let function = &self.tree.functions()[instance.function];
        short_enough(function.locals.len())?;
        let symbol = symbol(alloc, self.tree, instance)?;
        short_enough(symbol.len())?;
        let measure = Measure {
            types: self.tree.types(),
            structs: self.tree.structs(),
            forms: self.forms,
        };
        let widths = measure.list_widths(alloc, &[], instance.arguments)?;
        let numbers = numbers_of(alloc, measure.types, instance.arguments)?;
        let around = Around {
            measure,
            consts: self.tree.consts(),
            widths: widths.as_slice(),
            numbers: numbers.as_slice(),
            locals: function.locals.as_slice(),
            calls,
        };
        close_function(alloc, &around, function, symbol, external)
    }

    /// What a unit knows of the item at a place that another unit has.
    pub fn know_item(&self, alloc: Global, place: usize) -> Result<ExternalFn, AllocError>
        requires closing { IsClosing self.now }
        requires place { place < length self.now.items.now }
        ensures is { IfOk result (λ f. external_view f ≡ known_item self.now.tree.now self.now.items.now place) }
        ensures held { IfOk result (λ f. IsHeldExternal (external_view f)) }
    {
        let instance = self.items[place].instance;
        let function = &self.tree.functions()[instance.function];
        short_enough(function.locals.len())?;
        let symbol = symbol(alloc, self.tree, instance)?;
        short_enough(symbol.len())?;
        let measure = Measure {
            types: self.tree.types(),
            structs: self.tree.structs(),
            forms: self.forms,
        };
        let widths = measure.list_widths(alloc, &[], instance.arguments)?;
        let widths = widths.as_slice();
        let params = measure.locals_width(widths, function.locals.as_slice(), function.params);
        let result = measure.width(widths, function.outcome);
        Ok(ExternalFn {
            symbol,
            params,
            result,
        })
    }
}
