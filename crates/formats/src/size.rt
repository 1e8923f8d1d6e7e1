// The numbers of a level that are known before it is built, kept small by the type.
ghost use Rattle.std.specs.Prelude.{◌≤◌};

#[derive(Clone, Copy)]
pub struct LevelSize {
    pub extent: u32,
    pub fibers: u32,
    // how many coordinates the fibers' lists have together
    pub entries: u32,
    ghost narrow: { extent ≤ 4096 },
    ghost few: { fibers ≤ 65536 },
    ghost short: { entries ≤ 65536 },
}
