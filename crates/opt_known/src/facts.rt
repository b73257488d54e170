//! What is known of slots at a place of a body.
//!
//! There is an entry for each slot up to the last that anything was learned of. A clock counts the puts of words into slots.
//! A fact that names a slot counts only where it was learned after the last put into that slot. So a put costs the same
//! however many facts name its slot.

ghost use Rattle.std.specs.Prelude.{◌<◌, ◌^◌};
ghost use Rattle.opt_known.specs.Table.{InTime};

use crate::entry::{Entry, Fact};
use opt_slots::SlotSet;
use std::alloc::{AllocError, Global};
use unit_ir::IrExpr;

/// What is known of slots.
#[derive(Drop)]
pub(crate) struct Facts {
    clock: u64,
    entries: Vec<Entry>,
    ghost fits: { clock < 2 ^ 64 },
    ghost in_time: { InTime clock entries.items },
}

impl Facts {
    ghost use Rattle.std.specs.Prelude.{◌≡◌, ◌+◌, ◌<◌, ◌≤◌, length, IfOk, OnOk};
    ghost use Rattle.unit_ir.specs.ExprView.{expr_view};
    ghost use Rattle.opt_slots.specs.Slots.{slots_of, only, span};
    ghost use Rattle.unit_ir.specs.Exprs.{load};
    ghost use Rattle.opt_known.specs.Facts.{if_so};
    ghost use Rattle.opt_known.specs.Facts as plain;
    ghost use Rattle.opt_known.specs.Table.{fact_view, counts};
    ghost use Rattle.opt_known.specs.Walked.{facts_of};

    /// Nothing is known.
    pub(crate) fn none(alloc: Global) -> Facts
        ensures { facts_of result ≡ plain.nothing_known }
    {
        Facts {
            clock: 0,
            entries: Vec::new(alloc),
        }
    }

    /// The same once more.
    pub(crate) fn copied(&self, alloc: Global) -> Result<Facts, AllocError>
        ensures { IfOk result (λ r. facts_of r ≡ facts_of self.now) }
    {
        let entries = Vec::from_slice(alloc, self.entries.as_slice())?;
        Ok(Facts {
            clock: self.clock,
            entries,
        })
    }

    /// What is known of a slot.
    pub(crate) fn of(&self, slot: u8) -> Fact
        ensures { fact_view result ≡ facts_of self.now slot }
    {
        if slot as usize >= self.entries.len() {
            return Fact::Nothing;
        }
        let entry = &self.entries[slot as usize];
        match &entry.fact {
            Fact::Nothing => Fact::Nothing,
            Fact::Word(value) => Fact::Word(*value),
            Fact::Slot(other) => self.unless_put(*other, entry.learned),
        }
    }

    // The fact that names a slot and was learned at this time, where it counts.
    fn unless_put(&self, other: u8, learned: u64) -> Fact
        requires { learned ≤ self.now.clock }
        ensures { fact_view result ≡ counts self.now.entries.items learned (plain.is_load other) }
    {
        if other as usize >= self.entries.len() {
            return Fact::Nothing;
        }
        if self.entries[other as usize].written <= learned {
            Fact::Slot(other)
        } else {
            Fact::Nothing
        }
    }

    /// Words were put into a slot.
    pub(crate) fn put(&mut self, slot: usize) -> Result<(), AllocError>
        ensures facts { OnOk result (facts_of self.new ≡ plain.forget (only slot) (facts_of self.old)) }
        ensures count { length self.new.entries.items ≡ length self.old.entries.items }
    {
        if slot >= self.entries.len() {
            return Ok(());
        }
        self.tick()?;
        self.entries[slot] = Entry {
            fact: Fact::Nothing,
            learned: self.clock,
            written: self.clock,
        };
        Ok(())
    }

    // The clock goes on. It stops only behind more puts than any memory has statements for.
    fn tick(&mut self) -> Result<(), AllocError>
        ensures entries { self.new.entries ≡ self.old.entries }
        ensures clock { OnOk result (self.new.clock ≡ self.old.clock + 1) }
    {
        match self.clock.checked_add(1) {
            None => Err(AllocError),
            Some(next) => {
                self.clock = next;
                Ok(())
            }
        }
    }

    /// Words were put into `count` slots from `first` on.
    pub(crate) fn put_row(&mut self, first: u8, count: u8) -> Result<(), AllocError>
        ensures { OnOk result (facts_of self.new ≡ plain.forget (span first count) (facts_of self.old)) }
    {
        let end = first as usize + count as usize;
        for slot in first as usize..end {
            self.put(slot)?;
        }
        Ok(())
    }

    /// Words were put into the slots of a set.
    pub(crate) fn put_all(&mut self, set: &SlotSet) -> Result<(), AllocError>
        ensures { OnOk result (facts_of self.new ≡ plain.forget (slots_of set.now) (facts_of self.old)) }
    {
        for slot in 0..self.entries.len() {
            self.put_if(slot, set.contains(slot))?;
        }
        Ok(())
    }

    // Words were put into a slot, if so.
    fn put_if(&mut self, slot: usize, done: bool) -> Result<(), AllocError>
        ensures facts { OnOk result (facts_of self.new ≡ plain.forget (if_so done (only slot)) (facts_of self.old)) }
        ensures count { length self.new.entries.items ≡ length self.old.entries.items }
    {
        if !done {
            return Ok(());
        }
        self.put(slot)?;
        Ok(())
    }

    /// A slot got the word of an expression.
    pub(crate) fn learn(&mut self, slot: u8, value: &IrExpr) -> Result<(), AllocError>
        ensures { OnOk result (facts_of self.new ≡ plain.learn slot (expr_view value.now) (facts_of self.old)) }
    {
        match value {
            IrExpr::Const(word) => self.learn_word(slot, *word),
            IrExpr::Load(other) => self.learn_slot(slot, *other),
            _ => Ok(()),
        }
    }

    fn learn_word(&mut self, slot: u8, word: i64) -> Result<(), AllocError>
        ensures { OnOk result (facts_of self.new ≡ plain.with_fact slot (plain.is_word word) (facts_of self.old)) }
    {
        self.reach(slot)?;
        self.note(slot, Fact::Word(word));
        Ok(())
    }

    fn learn_slot(&mut self, slot: u8, other: u8) -> Result<(), AllocError>
        ensures { OnOk result (facts_of self.new ≡ plain.learn slot (load other) (facts_of self.old)) }
    {
        if other == slot {
            return Ok(());
        }
        self.reach(other)?;
        self.reach(slot)?;
        self.note(slot, Fact::Slot(other));
        Ok(())
    }

    // What is known of a slot from now on. The slot has an entry, and so has one that the fact names.
    fn note(&mut self, slot: u8, fact: Fact)
        requires there { slot < length self.old.entries.items }
        requires counted { counts self.old.entries.items self.old.clock (fact_view fact) ≡ fact_view fact }
        ensures { facts_of self.new ≡ plain.with_fact slot (fact_view fact) (facts_of self.old) }
    {
        let written = self.entries[slot as usize].written;
        self.entries[slot as usize] = Entry {
            fact,
            learned: self.clock,
            written,
        };
    }

    // A slot has an entry.
    fn reach(&mut self, slot: u8) -> Result<(), AllocError>
        ensures there { OnOk result (slot < length self.new.entries.items) }
        ensures kept { OnOk result (length self.old.entries.items ≤ length self.new.entries.items) }
        ensures facts { OnOk result (facts_of self.new ≡ facts_of self.old) }
    {
        while self.entries.len() <= slot as usize {
            self.grow()?;
        }
        Ok(())
    }

    // An entry more, of which nothing is known.
    fn grow(&mut self) -> Result<(), AllocError>
        ensures count { OnOk result (length self.new.entries.items ≡ length self.old.entries.items + 1) }
        ensures facts { OnOk result (facts_of self.new ≡ facts_of self.old) }
    {
        self.tick()?;
        self.entries.push(Entry {
            fact: Fact::Nothing,
            learned: self.clock,
            written: self.clock,
        })?;
        Ok(())
    }
}
