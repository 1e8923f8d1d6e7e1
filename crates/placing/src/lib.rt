// Where the levels and the values of a stored tensor lie in the areas of the slots.
#![tactic(auto)]

mod level_words;
mod places;
mod value_places;

pub use level_words::level_at;
pub use places::{PlacedLevel, PlacedValues, PlacedWords};
pub use value_places::values_at;
