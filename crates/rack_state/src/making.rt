// How a rack is made, and how its areas are handed back.
ghost use Rattle.std.specs.Prelude.{◌≡◌, IfOk};
ghost use Rattle.model.specs.Stores.{out_of_range, wrong_sizes};
ghost use Rattle.model.specs.Books.{new_book};
ghost use Rattle.plans.specs.Rooms.{rules_of};
ghost use Rattle.rack_state.specs.Snapshots.{view, sizes_given, lengths};
ghost use Rattle.rack_state.specs.Mirrors.{Mirrors};
ghost use Rattle.rack_state.specs.Making.{Made, Freed};

use crate::areas::{Areas, RackSizes, ResultAreas, StreamAreas};
use crate::state::RackState;
use graphs::Graph;
use levels::Formats;
use semiring::Semiring;
use slots::{SlotAreas, SlotSizes, Slots};
use std::marker::PhantomData;
use streams::Tapes;

fn is_out_of_range(most: usize, n: usize) -> bool
    ensures { result ≡ out_of_range most n }
{
    n == 0 || most < n
}

// Whether a size is out of range, or an area too short for it.
fn are_wrong<P>(sizes: &RackSizes, areas: &Areas<P>) -> bool
    ensures { result ≡ wrong_sizes (sizes_given sizes.now) (lengths areas.now) }
{
    is_out_of_range(4096, sizes.positions)
        || is_out_of_range(8192, sizes.level_words)
        || is_out_of_range(1_048_576, sizes.stream_words)
        || is_out_of_range(1_048_576, sizes.stream_values)
        || is_out_of_range(4096, sizes.places)
        || areas.slot_values.len() < 8 * sizes.positions
        || areas.level_words.len() < 8 * sizes.level_words
        || areas.stream_words.len() < sizes.stream_words
        || areas.stream_values.len() < sizes.stream_values
        || areas.keys.len() < sizes.places
        || areas.key_values.len() < sizes.places
}

impl<V: Semiring, S: Formats> RackState<V, S> {
    // An empty rack over the areas, as they are. Wrong sizes are refused, and the areas handed back.
    pub fn new(sizes: RackSizes, areas: Areas<V::Plain>) -> Result<RackState<V, S>, Areas<V::Plain>>
        ensures sizes { Made sizes areas result }
        ensures empty { IfOk result (λ s. Mirrors V.algebra V.reads (rules_of S.wants S.births) S.meaning new_book (view s)) }
    {
        if are_wrong(&sizes, &areas) {
            return Err(areas);
        }
        let Some(room) = SlotSizes::new(sizes.positions, sizes.level_words) else {
            return Err(areas);
        };
        Ok(RackState {
            formats: PhantomData,
            tensors: SlotAreas {
                slots: Slots::new(),
                words: areas.level_words,
                values: areas.slot_values,
                room,
            },
            graph: Graph::new(),
            loaded: None,
            streams: StreamAreas {
                tapes: Tapes::new(),
                words: areas.stream_words,
                values: areas.stream_values,
                word_room: sizes.stream_words,
                value_room: sizes.stream_values,
            },
            results: ResultAreas {
                keys: areas.keys,
                sums: areas.key_values,
                count: 0,
                places: sizes.places,
            },
        })
    }

    // Hands the areas back, as they are.
    pub fn into_areas(self) -> Areas<V::Plain>
        ensures { Freed (view self) result }
    {
        let (level_words, slot_values) = self.tensors.into_areas();
        Areas {
            slot_values,
            level_words,
            stream_words: self.streams.words,
            stream_values: self.streams.values,
            keys: self.results.keys,
            key_values: self.results.sums,
        }
    }
}
