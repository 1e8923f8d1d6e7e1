// Places in the areas of the slots. Only the types stand here, since what is said of them names them.
use slots::LevelRecord;

// A level: its record, and where its words lie.
#[derive(Clone, Copy)]
pub struct PlacedLevel {
    pub record: LevelRecord,
    pub words: PlacedWords,
}

// Words from `start` up to, and without, `end`. Not a range, which can't be copied.
#[derive(Clone, Copy)]
pub struct PlacedWords {
    pub start: usize,
    pub end: usize,
}

// Values from `start` up to, and without, `end`.
#[derive(Clone, Copy)]
pub struct PlacedValues {
    pub start: usize,
    pub end: usize,
}
