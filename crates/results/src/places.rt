// The three places of a key: those that a line does not use are 0.
ghost use Rattle.std.specs.Prelude.{◌≡◌, ◌<◌, ◌≤◌, length, MatchOption};
ghost use Rattle.model.specs.Commands.{filled};
ghost use Rattle.results.specs.Keys.{coordinates};
ghost use Rattle.results.specs.Padding.{Padding, KeysAlone};

use crate::key::ResultKey;
use semiring::Semiring;

const PLACES: usize = 3;

// How many places a key has. A table of keys filled up to that many is the table of the keys.
pub fn key_places<V: Semiring>() -> usize
    ensures places { result ≡ 3 }
    ensures padding { Padding V.algebra result }
    ensures alone { KeysAlone V.algebra }
{
    PLACES
}

impl ResultKey {
    // The key of these coordinates, filled up with zeros; none exactly if they are more than three.
    pub fn of(parts: &[u32]) -> Option<ResultKey>
        ensures { MatchOption result (3 < length parts.now) (λ k. (length parts.now ≤ 3) × (coordinates k ≡ filled 3 0 parts.now)) }
    {
        let mut row = [0; 3];
        if parts.len() > row.len() {
            return None;
        }
        row[..parts.len()].copy_from_slice(parts);
        Some(ResultKey { parts: row })
    }
}
