// The coordinates of a request's entries. Only the type stands here, since its invariant may not cite what names it.
ghost use Rattle.std.specs.Prelude.{◌≡◌, ◌*◌, length};

// Rows of coordinates that stand one after another: one for each of `count` entries, of `rank` coordinates each.
#[derive(Clone, Copy)]
pub struct Rows<'a> {
    pub coordinates: &'a [u32],
    pub rank: usize,
    pub count: usize,
    ghost whole: { length coordinates.now ≡ rank * count },
}
