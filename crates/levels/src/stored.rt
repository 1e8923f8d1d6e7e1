// A level as it lies in memory.
use formats::LevelSize;

#[derive(Clone, Copy)]
pub struct StoredLevel<'w> {
    // which format it has
    pub number: u8,
    pub size: LevelSize,
    pub words: &'w [u32],
}
