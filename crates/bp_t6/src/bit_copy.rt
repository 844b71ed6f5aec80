// Bits copied as they stand.
ghost use Rattle.std.specs.Prelude.{◌≡◌, ◌++◌, OnOk};
ghost use Rattle.bp_t6.specs.Marks.{Continues};

use crate::bit_writer::BitWriter;
use crate::row_code::RowCode;
use std::alloc::AllocError;

/// Adds the bits of a row's code. Where memory is lacking, some of them may have been put.
pub fn copy_bits(out: &mut BitWriter, code: &RowCode) -> Result<(), AllocError>
    ensures copied { OnOk result (out.new ≡ out.old ++ code.now) }
    ensures begins { Continues out.old out.new }
{
    let to = code.len();
    let mut at = 0;
    while at < to {
        let piece = code.piece(at);
        out.put(piece)?;
        at += u64::from(piece.len);
    }
    Ok(())
}
