// Slots by number, and where a slot's parts of the areas begin.
ghost use Rattle.std.specs.Prelude.{◌≡◌, ◌+◌, ◌*◌, ◌<◌, ◌≤◌, MatchOption};

use crate::areas::SlotSizes;

// The number of a slot that there is.
#[derive(Clone, Copy)]
pub struct SlotNumber {
    pub number: usize,
    ghost in_range: { number ≤ 7 },
}

impl SlotNumber {
    pub const LAST: usize = 7;

    // None exactly past the last slot.
    pub fn new(number: usize) -> Option<SlotNumber>
        ensures { MatchOption result (7 < number) (λ s. s.number ≡ number) }
    {
        if number > Self::LAST {
            return None;
        }
        Some(SlotNumber { number })
    }

    // Where the slot's part begins, of which each slot has `size` places.
    fn start(self, size: usize) -> usize
        requires { size ≤ 8192 }
        ensures start { result ≡ self.number * size }
        ensures within { result + size ≤ 8 * size }
    {
        self.number * size
    }
}

impl SlotSizes {
    // Where the slot's level words begin.
    pub fn first_word(self, slot: SlotNumber) -> usize
        ensures start { result ≡ slot.number * self.level_words }
        ensures within { result + self.level_words ≤ 8 * self.level_words }
    {
        slot.start(self.level_words)
    }

    // Where the slot's values begin.
    pub fn first_position(self, slot: SlotNumber) -> usize
        ensures start { result ≡ slot.number * self.positions }
        ensures within { result + self.positions ≤ 8 * self.positions }
    {
        slot.start(self.positions)
    }
}
