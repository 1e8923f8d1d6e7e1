// Bytes of a line, lists of variables and arguments.
ghost use Rattle.std.specs.Prelude.{◌≡◌, ◌+◌, ◌<◌, ◌≤◌, true, false, length, ◌≢◌, slice_index, MatchResult};
ghost use Rattle.model.specs.Grammar.{is_var, is_slot};
ghost use Rattle.reader.specs.Walk.{Lists, start, bracket, tail};
ghost use Rattle.reader.specs.Reader.{Sees, SeesOne, Rest, Args, Failed, ARest, AnArgs, ATail, AHead, Head, Order};

use crate::faults::GrammarFault;

// A text that is no longer than a line may be.
#[derive(Clone, Copy)]
pub(crate) struct Text<'a> {
    pub(crate) bytes: &'a [u8],
    ghost short: { length bytes.now ≤ 256 },
}

// One of a to z.
pub fn is_var(b: u8) -> bool
    ensures { result ≡ is_var b }
{
    matches!(b, b'a'..=b'z')
}

fn is_slot(b: u8) -> bool
    ensures { result ≡ is_slot b }
{
    matches!(b, b'A'..=b'H')
}

impl Text<'_> {
    // Whether b stands at i.
    pub(crate) fn sees(self, i: usize, b: u8) -> bool
        ensures { Sees self.entry.bytes.now i b result }
    {
        self.bytes.get(i) == Some(&b)
    }

    fn sees_var(self, i: usize) -> bool
        ensures { SeesOne is_var self.entry.bytes.now i result }
    {
        self.bytes.get(i).copied().is_some_and(is_var)
    }

    pub(crate) fn sees_slot(self, i: usize) -> bool
        ensures { SeesOne is_slot self.entry.bytes.now i result }
    {
        self.bytes.get(i).copied().is_some_and(is_slot)
    }

    pub(crate) fn expect(self, i: usize, b: u8) -> Result<(), GrammarFault>
        ensures { MatchResult result (λ _. (i < length self.entry.bytes.now) × (slice_index self.entry.bytes.now i ≡ b)) (λ f. (f.place ≡ i) × (i < length self.entry.bytes.now → slice_index self.entry.bytes.now i ≢ b)) }
    {
        self.sees(i, b)
            .then_some(())
            .ok_or(GrammarFault { place: i })
    }

    fn expect_var(self, i: usize) -> Result<(), GrammarFault>
        ensures { MatchResult result (λ _. (i < length self.entry.bytes.now) × (is_var (slice_index self.entry.bytes.now i) ≡ true)) (λ f. (f.place ≡ i) × (i < length self.entry.bytes.now → is_var (slice_index self.entry.bytes.now i) ≡ false)) }
    {
        self.sees_var(i)
            .then_some(())
            .ok_or(GrammarFault { place: i })
    }

    // {"," var}: where it ends.
    fn rest(self, at: usize) -> Result<usize, GrammarFault>
        requires { at ≤ length self.bytes.now }
        ensures { MatchResult result (Rest self.entry.bytes.now at) (λ f. Failed ARest (λ (l : Lists). l.m) self.entry.bytes.now at f.place) }
    {
        let mut end = at;
        'names: while self.sees(end, b',') {
            self.expect_var(end + 1)?;
            end += 2;
        }
        Ok(end)
    }

    // "(" [var {"," var}] ")": where it ends.
    pub(crate) fn args(self, at: usize) -> Result<usize, GrammarFault>
        requires { at ≤ length self.bytes.now }
        ensures { MatchResult result (Args self.entry.bytes.now at) (λ f. Failed AnArgs bracket self.entry.bytes.now at f.place) }
    {
        self.expect(at, b'(')?;
        if self.sees(at + 1, b')') {
            return Ok(at + 2);
        }
        self.expect_var(at + 1)?;
        let end = self.rest(at + 2)?;
        self.expect(end, b')')?;
        Ok(end + 1)
    }

    // "R" args "=": where it ends.
    pub(crate) fn head(self) -> Result<usize, GrammarFault>
        ensures { MatchResult result (Head self.entry.bytes.now) (λ f. Failed AHead (λ (u : Unit {0}). start) self.entry.bytes.now 0 f.place) }
    {
        self.expect(0, b'R')?;
        let end = self.args(1)?;
        self.expect(end, b'=')?;
        Ok(end + 1)
    }

    // [var {"," var}], up to the end.
    pub(crate) fn order(self, at: usize) -> Result<(), GrammarFault>
        requires { at ≤ length self.bytes.now }
        ensures { MatchResult result (λ _. Order self.entry.bytes.now at) (λ f. Failed ATail (λ (u : Unit {0}). tail) self.entry.bytes.now at f.place) }
    {
        if at == self.bytes.len() {
            return Ok(());
        }
        self.expect_var(at)?;
        let end = self.rest(at + 1)?;
        if end < self.bytes.len() {
            return Err(GrammarFault { place: end });
        }
        Ok(())
    }
}
