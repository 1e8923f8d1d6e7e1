// How tapes are recorded and found again.
ghost use Rattle.std.specs.Prelude.{◌≡◌};
ghost use Rattle.std.specs.Result.{is_ok};
ghost use Rattle.streams.specs.Records.{Empty, Pushed, PushedAlone, Recorded, RecordedAlone, part_of};

use crate::fault::NoRoom;
use crate::record::Tapes;
use tapes::part::Part;

// The most streams that there are: their numbers are bytes, and FF is no stream.
const MOST: usize = 255;

impl Tapes {
    // No stream, and nothing in use.
    pub fn new() -> Tapes
        ensures { Empty result }
    {
        Tapes {
            starts: [0; 256],
            count: 0,
            used: 0,
            taken: 0,
        }
    }

    // No stream any more: all words and values are free again.
    pub fn clear(&mut self)
        ensures { Empty self.new }
    {
        self.starts[0] = 0;
        self.count = 0;
        self.used = 0;
        self.taken = 0;
    }

    // Where the tape of a stream lies; nowhere past the last number.
    pub fn part(&self, stream: u8) -> Part
        ensures { result ≡ part_of self.now stream }
    {
        let n = stream as usize;
        if n >= MOST {
            return Part { from: 0, to: 0 };
        }
        Part {
            from: self.starts[n],
            to: self.starts[n + 1],
        }
    }

    // One more tape, of n words right behind those in use, and with m values. Where there are as many streams as there may be, its place is not kept.
    pub fn push(&mut self, n: usize, m: usize)
        ensures { Pushed n m self.old self.new }
    {
        self.used = self.used.saturating_add(n);
        self.taken = self.taken.saturating_add(m);
        if self.count < MOST {
            self.count += 1;
            self.starts[self.count] = self.used;
        }
    }

    // One more tape of n words, and no value more.
    pub fn push_words(&mut self, n: usize)
        ensures { PushedAlone n self.old self.new }
    {
        self.push(n, 0);
    }

    // One more tape, of the words and values that a block took; none where there was no room for them.
    pub fn record(&mut self, took: Option<(usize, usize)>) -> Result<(), NoRoom>
        ensures { Recorded took self.old (is_ok result) self.new }
    {
        let (n, m) = took.ok_or(NoRoom)?;
        self.push(n, m);
        Ok(())
    }

    // The same of a block that puts out no values.
    pub fn record_words(&mut self, took: Option<usize>) -> Result<(), NoRoom>
        ensures { RecordedAlone self.old took (is_ok result) self.new }
    {
        self.push_words(took.ok_or(NoRoom)?);
        Ok(())
    }
}
