// A token stands in a word: below 0x80000000 a payload, from there on a stop, but for the two words of empty and done.
ghost use Rattle.std.specs.Prelude.{◌≡◌, ◌%◌, ◌^◌};
ghost use Rattle.model.specs.Tokens.{word as word_of, token as token_of};
ghost use Rattle.tapes.specs.Views.{seen, Proper};

const FIRST_STOP: u32 = 0x8000_0000;

const EMPTY: u32 = 0x8000_00FE;

const DONE: u32 = 0x8000_00FF;

#[derive(Clone, Copy)]
pub enum Token {
    Payload(u32),
    Stop(u32),
    Empty,
    Done,
}

impl Token {
    pub fn decode(word: u32) -> Token
        ensures reads { seen result ≡ token_of word }
        ensures back { word_of (seen result) ≡ word }
        ensures proper { Proper (seen result) }
    {
        if word < FIRST_STOP {
            Token::Payload(word)
        } else if word == EMPTY {
            Token::Empty
        } else if word == DONE {
            Token::Done
        } else {
            Token::Stop(word - FIRST_STOP)
        }
    }

    // A stop that is too high for a word goes round; no tape of a stream has one.
    pub fn encode(self) -> u32
        ensures writes { result ≡ word_of (seen self) % 2 ^ 32 }
        ensures back { Proper (seen self) → (token_of result ≡ seen self) × (result ≡ word_of (seen self)) }
    {
        match self {
            Token::Payload(p) => p,
            Token::Stop(n) => FIRST_STOP.wrapping_add(n),
            Token::Empty => EMPTY,
            Token::Done => DONE,
        }
    }
}
