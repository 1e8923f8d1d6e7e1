// The eight slots as a list by number: one is read, one is replaced.
ghost use Rattle.std.specs.Prelude.{◌≡◌, replicate, Some, None, MatchOption, slice_index_or, slice_set};
ghost use Rattle.slots.specs.Records.{slot_list};

use crate::parts::SlotNumber;
use crate::records::{Slots, TensorRecord};

impl Slots {
    // Eight empty slots.
    pub fn new() -> Slots
        ensures { slot_list result ≡ replicate 8 None }
    {
        Slots { records: [None; 8] }
    }

    // The record of a slot; none past the last.
    pub fn get(&self, slot: usize) -> Option<TensorRecord>
        ensures { result ≡ slice_index_or (slot_list self.now) slot None }
    {
        self.records.get(slot).copied().flatten()
    }

    // The tensor in a slot, with the slot's number; none where the slot is empty, or past the last.
    pub fn filled(&self, slot: usize) -> Option<(SlotNumber, TensorRecord)>
        ensures { MatchOption result (slice_index_or (slot_list self.now) slot None ≡ None) (λ x. (x.0.number ≡ slot) × (slice_index_or (slot_list self.now) slot None ≡ Some x.1)) }
    {
        let number = SlotNumber::new(slot)?;
        Some((number, self.get(slot)?))
    }

    // Replaces the record of this slot and no other; past the last there is none to replace.
    pub fn replace(&mut self, slot: usize, tensor: TensorRecord)
        ensures { slot_list self.new ≡ slice_set (slot_list self.old) slot (Some tensor) }
    {
        if slot < self.records.len() {
            self.records[slot] = Some(tensor);
        }
    }
}
