// How sizes and areas are made, and handed back.
ghost use Rattle.std.specs.Prelude.{◌≡◌, List, replicate, None, MatchOption};
ghost use Rattle.slots.specs.Areas.{InRange, Made, state_of, slot_state};

use crate::areas::{SlotAreas, SlotSizes};
use crate::records::Slots;

impl SlotSizes {
    // The most that a slot may have.
    pub const MAX_POSITIONS: usize = 4096;

    pub const MAX_LEVEL_WORDS: usize = 8192;

    // None exactly if a size is out of range.
    pub fn new(positions: usize, level_words: usize) -> Option<SlotSizes>
        ensures { MatchOption result (InRange positions level_words → ⊥) (λ s. InRange positions level_words × (s.positions ≡ positions) × (s.level_words ≡ level_words)) }
    {
        if positions == 0 || positions > Self::MAX_POSITIONS {
            return None;
        }
        if level_words == 0 || level_words > Self::MAX_LEVEL_WORDS {
            return None;
        }
        Some(SlotSizes {
            positions,
            level_words,
        })
    }
}

impl<P> SlotAreas<P> {
    // Eight empty slots over areas that are as they were; areas too short are handed back.
    pub fn new(
        room: SlotSizes,
        words: Vec<u32>,
        values: Vec<P>,
    ) -> Result<SlotAreas<P>, (Vec<u32>, Vec<P>)>
        ensures { Made room words values result }
    {
        if words.len() < 8 * room.level_words || values.len() < 8 * room.positions {
            return Err((words, values));
        }
        Ok(SlotAreas {
            slots: Slots::new(),
            words,
            values,
            room,
        })
    }

    // Hands the areas back.
    pub fn into_areas(self) -> (Vec<u32>, Vec<P>)
        ensures { (result.0 ≡ self.words) × (result.1 ≡ self.values) }
    {
        let SlotAreas {
            slots: _,
            words,
            values,
            room: _,
        } = self;
        (words, values)
    }
}
