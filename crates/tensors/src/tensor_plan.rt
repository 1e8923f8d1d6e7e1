// What a STORE is to write. Only the type stands here, since its invariants may not cite what names it.
ghost use Rattle.std.specs.Prelude.{◌≡◌, ◌≤◌, length, None};
ghost use Rattle.model.specs.Conditions.{first_fault};
ghost use Rattle.model.specs.Stores.{entry_checks};
ghost use Rattle.plans.specs.Rows.{rows_in};

use plans::Rows;
use slots::TensorRecord;

// The record of a planned tensor, its extents, and the rows of its entries, which ascend within them.
#[derive(Clone, Copy)]
pub(crate) struct TensorPlan<'r> {
    pub tensor: TensorRecord,
    pub extents: &'r [u32],
    pub rows: Rows<'r>,
    ghost rank: { tensor.rank ≡ length extents.now },
    ghost row_rank: { rows.rank ≡ length extents.now },
    ghost few: { rows.count ≤ 4096 },
    ghost ordered: { first_fault (entry_checks extents.now 0 None (rows_in rows)) ≡ None },
}
