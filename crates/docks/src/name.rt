// The name of a dock, held in place.
ghost use Rattle.std.specs.Prelude.{◌≡◌, ◌≤◌, ◌-◌, ◌++◌, length, take, replicate};

use std::{fmt, str};

mod methods;

// An array with its length, and no growing text: a table of names in such texts could not be taken out of a `Result` by `?`.
#[derive(Clone, Copy, Debug)]
pub struct Name {
    bytes: [u8; 16],
    len: usize,
    ghost short: { len ≤ 16 },
    ghost room: { length bytes ≡ 16 },
    ghost filled: { bytes ≡ take len bytes ++ replicate (16 - len) 0 },
}

// A name that was read is ASCII text.
impl fmt::Display for Name {
    fn fmt<W: fmt::Write>(&self, f: &mut fmt::Formatter<W>) -> fmt::Result {
        f.write_str(str::from_utf8(self.as_bytes()).unwrap_or("?"))
    }
}
