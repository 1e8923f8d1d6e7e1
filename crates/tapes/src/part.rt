// A tape is a part of the words of an area: those from `from` up to, and without, `to`, as far as there are any.
ghost use Rattle.std.specs.Prelude.{◌≡◌, ◌+◌, [], ◌∷◌, length, MatchOption};
ghost use Rattle.tapes.specs.Areas.{held};

#[derive(Clone, Copy, Default)]
pub struct Part {
    pub from: usize,
    pub to: usize,
}

impl Part {
    // The first word of a tape and what follows it.
    pub fn first(self, words: &[u32]) -> Option<(u32, Part)>
        ensures { MatchOption result (held self words.now ≡ []) (λ p. (held self words.now ≡ p.0 ∷ held p.1 words.now) × (length (held p.1 words.now) + 1 ≡ length (held self words.now))) }
    {
        if self.from >= self.to {
            return None;
        }
        let word = *words.get(self.from)?;
        let rest = Part {
            from: self.from + 1,
            ..self
        };
        Some((word, rest))
    }
}
