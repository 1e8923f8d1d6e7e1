// The key of a result: the coordinates of the left variables. Those that a line does not have are 0.
ghost use Rattle.std.specs.Prelude.{◌≡◌, length, replicate};

#[derive(Clone, Copy, Debug, PartialEq, Eq, PartialOrd, Ord)]
pub struct ResultKey {
    pub parts: [u32; 3],
    ghost three: { length parts ≡ 3 },
}

// All coordinates 0.
impl Default for ResultKey {
    ghost is_default = { λ k. k.parts ≡ replicate 3 0 };

    fn default() -> ResultKey {
        ResultKey { parts: [0; 3] }
    }
}
