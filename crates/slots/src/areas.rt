// The slots with their areas, handed over by the caller and never grown. Only the types stand here, since their invariants may not cite what
// names them.
ghost use Rattle.std.specs.Prelude.{◌*◌, ◌<◌, ◌≤◌, vec_len};

use crate::records::Slots;

// The sizes of a slot's part of the areas, within the limits by their type.
#[derive(Clone, Copy)]
pub struct SlotSizes {
    // value positions
    pub positions: usize,
    pub level_words: usize,
    ghost some_positions: { 0 < positions },
    ghost few_positions: { positions ≤ 4096 },
    ghost some_words: { 0 < level_words },
    ghost few_words: { level_words ≤ 8192 },
}

#[derive(Drop)]
pub struct SlotAreas<P> {
    pub slots: Slots,
    pub words: Vec<u32>,
    pub values: Vec<P>,
    pub room: SlotSizes,
    ghost words_fit: { 8 * room.level_words ≤ vec_len words },
    ghost values_fit: { 8 * room.positions ≤ vec_len values },
}
