// Room for the rows of a page on their way out.
ghost use Rattle.std.specs.Prelude.{◌≡◌, ◌<◌, ◌≤◌, ◌∷◌, [], IfOk};

use crate::paper::white_page;
use bp_core::OutOfMemory;
use bp_rows::{MAX_WIDTH, Page, Runs};
use bp_t6::RowRoom;
use std::alloc::Global;
use std::marker::Model;

/// All room that reading and covering the rows of a page takes. Whoever takes it sees no page, and no
/// more than the width.
#[derive(Drop)]
pub struct OutRoom {
    pub(crate) rows: RowRoom,
    pub(crate) line: Page,
    pub(crate) white: Runs,
}

// Clauses see the width.
impl Model for OutRoom {
    ghost use Rattle.std.specs.Prelude.{ℕ};
    ghost use Rattle.bp_burn.specs.RowsOut.{IsOutRoom};

    ghost Value = { ℕ };

    ghost view = { λ r. r.rows };

    ghost invariant = { λ r. IsOutRoom r.rows r.line r.white };
}

impl OutRoom {
    /// Room for rows of that width in pixels.
    pub fn take(alloc: Global, width: u32) -> Result<OutRoom, OutOfMemory>
        requires some { 0 < width }
        requires wide { width ≤ MAX_WIDTH }
        ensures { IfOk result (λ room. room ≡ width) }
    {
        let rows = RowRoom::take(alloc, width)?;
        let line = white_page(alloc, width, 1)?;
        let white = white_runs(alloc, width)?;
        Ok(OutRoom { rows, line, white })
    }
}

// The runs of a white row.
fn white_runs(alloc: Global, width: u32) -> Result<Runs, OutOfMemory>
    ensures { IfOk result (λ runs. runs ≡ width ∷ []) }
{
    let mut runs = Vec::with_capacity(alloc, 1)?;
    runs.push(width)?;
    Ok(Runs::from_vec(runs))
}
