// Room for the rows of a page.
ghost use Rattle.std.specs.Prelude.{◌≡◌, ◌≤◌, IfOk};

use crate::line_reader::room_for;
use bp_core::OutOfMemory;
use bp_rows::MAX_WIDTH;
use std::alloc::Global;
use std::marker::Model;

/// Room for the changes of any row of a width, and for those of the row above it. Whoever takes it sees
/// no row.
#[derive(Drop)]
pub struct RowRoom {
    pub(crate) width: u32,
    pub(crate) above: Vec<u32>,
    pub(crate) line: Vec<u32>,
}

// Clauses see the width.
impl Model for RowRoom {
    ghost use Rattle.std.specs.Prelude.{ℕ, vec_capacity};
    ghost use Rattle.bp_t6.specs.SoFar.{IsRowRoom};

    ghost Value = { ℕ };

    ghost view = { λ r. r.width };

    ghost invariant = { λ r.
        IsRowRoom r.width r.above.items (vec_capacity r.above) (vec_capacity r.line) };
}

impl RowRoom {
    /// Room for rows of that width in pixels.
    pub fn take(alloc: Global, width: u32) -> Result<RowRoom, OutOfMemory>
        requires { width ≤ MAX_WIDTH }
        ensures { IfOk result (λ room. room ≡ width) }
    {
        let above = Vec::with_capacity(alloc, room_for(width))?;
        let line = Vec::with_capacity(alloc, room_for(width))?;
        Ok(RowRoom { width, above, line })
    }
}
