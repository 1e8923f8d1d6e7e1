// What is asked of a STORE. Only the type stands here, since what is said of it names it.

// A tensor to be stored in a slot.
#[derive_where(Clone, Copy)]
pub struct StoreRequest<'r, P> {
    pub slot: usize,
    pub rank: usize,
    pub extents: &'r [u32],
    pub formats: &'r [u8],
    // those of the entries, one entry after another
    pub coordinates: &'r [u32],
    pub entries: &'r [P],
}
