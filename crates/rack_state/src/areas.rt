// What a rack is made of.
ghost use Rattle.std.specs.Prelude.{◌≤◌, vec_len};

use results::ResultKey;
use streams::Tapes;

// The sizes of a rack as a caller gives them.
#[derive(Clone, Copy)]
pub struct RackSizes {
    // value positions and level words of a slot
    pub positions: usize,
    pub level_words: usize,
    pub stream_words: usize,
    pub stream_values: usize,
    // result places
    pub places: usize,
}

// The areas that a caller hands over. They are never grown.
#[derive(Drop)]
pub struct Areas<P> {
    pub slot_values: Vec<P>,
    pub level_words: Vec<u32>,
    pub stream_words: Vec<u32>,
    pub stream_values: Vec<P>,
    pub keys: Vec<ResultKey>,
    pub key_values: Vec<P>,
}

// Where the streams of a graph are made: their tapes, words and values, of which only so many may be used.
#[derive(Drop)]
pub struct StreamAreas<P> {
    pub tapes: Tapes,
    pub words: Vec<u32>,
    pub values: Vec<P>,
    pub word_room: usize,
    pub value_room: usize,
    ghost few_words: { word_room ≤ 1048576 },
    ghost few_values: { value_room ≤ 1048576 },
    ghost words_fit: { word_room ≤ vec_len words },
    ghost values_fit: { value_room ≤ vec_len values },
}

// Where the result is entered: keys beside sums, the first `count` in use, and at most `places`.
#[derive(Drop)]
pub struct ResultAreas<P> {
    pub keys: Vec<ResultKey>,
    pub sums: Vec<P>,
    pub count: usize,
    pub places: usize,
    ghost few_places: { places ≤ 4096 },
    ghost keys_fit: { places ≤ vec_len keys },
    ghost sums_fit: { places ≤ vec_len sums },
}
