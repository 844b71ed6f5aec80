// A page coded.
ghost use Rattle.std.specs.Prelude.{◌≡◌, ◌<◌, ◌≤◌, ◌+◌, ◌*◌, ◌^◌, ◌++◌, IfOk, length};
ghost use Rattle.bp_codes.specs.CodeLists.{end_of_block};
ghost use Rattle.bp_rows.specs.Image.{IsPage};
ghost use Rattle.bp_t6.specs.Written.{strip_bits, bits_strip};

use crate::line_writer::LineWriter;
use bp_core::{Bytes, OutOfMemory};
use bp_rows::Page;
use std::alloc::Global;

/// The strip of a page: each row coded against the one above it, the first against a white one,
/// then the end of the facsimile block and zero bits to the byte, the first bit of a byte highest
/// (ITU-T T.6, 2.2.4, EOFB and pad bits). At most `8 * (width + 1) * height + 4` bytes, so its
/// length fits 32 bits.
pub fn code_page(alloc: Global, page: &Page) -> Result<Bytes, OutOfMemory>
    ensures strip { IfOk result (λ bytes. bytes ≡ bits_strip page.now) }
    ensures short { let width = page.now.width in let height = page.now.height in
        IfOk result (λ bytes. length bytes ≤ 8 * (width + 1) * height + 4) }
    ensures fits { IfOk result (λ bytes. length bytes < 2 ^ 32) }
{
    let mut writer = code_rows(alloc, page)?;
    Ok(Bytes::from_vec(writer.finish(alloc)?))
}

// The strip under way with all rows of a page.
fn code_rows(alloc: Global, page: &Page) -> Result<LineWriter, OutOfMemory>
    ensures page { IsPage page.now }
    ensures coded { IfOk result (λ writer. writer.out ++ end_of_block ≡ strip_bits page.now) }
{
    let mut writer = LineWriter::new(alloc, page.width());
    let mut line = Vec::new(alloc);
    for row in 0..page.height() {
        page.row_changes(row, &mut line)?;
        writer.add(&mut line)?;
    }
    Ok(writer)
}
