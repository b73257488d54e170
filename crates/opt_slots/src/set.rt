//! A set of slots: a mark for each number. A slot is a byte, and so is the length of a row of slots. So a row ends below 511, and
//! a set has marks for 512 numbers.

ghost use Rattle.std.specs.Prelude.{◌≡◌};
ghost use Rattle.opt_slots.specs.Slots.{slots_of, no_slot, only, span, also, meets};

/// A set of slots.
#[derive(Drop)]
pub struct SlotSet {
    marked: [bool; 512],
}

impl SlotSet {
    /// No slot.
    pub fn empty() -> SlotSet
        ensures { slots_of result ≡ no_slot }
    {
        SlotSet {
            marked: [false; 512],
        }
    }

    /// Adds a slot.
    pub fn insert(&mut self, slot: u8)
        ensures { slots_of self.new ≡ also (slots_of self.old) (only slot) }
    {
        self.marked[slot as usize] = true;
    }

    /// Adds `count` slots from `first` on.
    pub fn insert_span(&mut self, first: u8, count: u8)
        ensures { slots_of self.new ≡ also (slots_of self.old) (span first count) }
    {
        let end = first as usize + count as usize;
        for slot in first as usize..end {
            self.marked[slot] = true;
        }
    }

    /// Whether it has this slot.
    #[tactic(auto, unfolding(crate::specs::Slots::marked_in))]
    pub fn contains(&self, slot: usize) -> bool
        ensures { result ≡ slots_of self.now slot }
    {
        match self.marked.get(slot) {
            None => false,
            Some(mark) => *mark,
        }
    }

    /// Whether it has one of the `count` slots from `first` on.
    pub fn has_any(&self, first: u8, count: u8) -> bool
        ensures { result ≡ meets (slots_of self.now) first count }
    {
        let end = first as usize + count as usize;
        for slot in first as usize..end {
            if self.marked[slot] {
                return true;
            }
        }
        false
    }
}
