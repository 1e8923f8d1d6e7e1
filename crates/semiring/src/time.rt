// A time is a word. Its type keeps that it fits, so that the laws hold of every value.
ghost use Rattle.std.specs.Prelude.{◌^◌, ◌<◌};

#[derive(Clone, Copy, PartialEq, Eq, Debug)]
pub struct Time {
    pub value: u32,
    ghost fits: { value < 2 ^ 32 },
}
