// Whether bytes are the strip of a page. They are exactly where the rows that are read from them have
// it again: other spellings of T.6 are read, but not kept.
ghost use Rattle.std.specs.Prelude.{◌≡◌, ◌<◌, ◌^◌, IfOk, IsTrue, is_some, length};
ghost use Rattle.std.specs.Str.{bytes_eq};
ghost use Rattle.bp_rows.specs.Limits.{sides_are_allowed};
ghost use Rattle.bp_matter.specs.Images.{CodedAgain, lines_of};

use bp_codes::Fill;
use bp_core::{Bytes, OutOfMemory, Refusal};
use bp_rows::allowed_sides;
use bp_t6::laws::{reading_law, rows_law, strip_law, strip_size};
use bp_t6::{StripRows, StripWriter, is_canonical};
use std::alloc::Global;

// Whether these bytes are the strip of some page of these sides, in pixels. Such a strip is told as it is
// read; else each row is read and coded again, so the check holds two rows and one strip beside the bytes.
pub(crate) fn is_strip(
    alloc: Global,
    width: u32,
    height: u32,
    bytes: &[u8],
) -> Result<bool, OutOfMemory>
    ensures { IfOk result (λ is. is ≡ is_some (lines_of width height bytes.now)) }
{
    strip_law();
    strip_size();
    if !allowed_sides(width, height) {
        return Ok(false);
    }
    if bytes.len() > 4_294_967_295 {
        return Ok(false);
    }
    let is_known = is_canonical(alloc, bytes, width, height)?;
    if is_known {
        return Ok(true);
    }
    match coded_again(alloc, width, height, bytes)? {
        None => Ok(false),
        Some(written) => Ok(is_same(written.as_slice(), bytes)),
    }
}

// The strip of the rows that are read from these bytes; None where they break a rule of T.6.
pub(crate) fn coded_again(
    alloc: Global,
    width: u32,
    height: u32,
    bytes: &[u8],
) -> Result<Option<Bytes>, OutOfMemory>
    requires sides { IsTrue (sides_are_allowed width height) }
    requires short { length bytes.now < 2 ^ 32 }
    ensures { IfOk result (CodedAgain width height bytes.now) }
{
    reading_law();
    rows_law();
    let mut rows = StripRows::over(alloc, bytes, Fill::High, width)?;
    let mut writer = StripWriter::start(alloc, width)?;
    for _row in 0..height {
        match rows.next_row() {
            Ok(()) => {}
            Err(Refusal::OutOfMemory) => return Err(OutOfMemory),
            Err(Refusal::Rule(_)) => return Ok(None),
        }
        writer.add_read(&rows)?;
    }
    let written = writer.finish(alloc)?;
    Ok(Some(written))
}

fn is_same(written: &[u8], bytes: &[u8]) -> bool
    ensures { result ≡ bytes_eq written.now bytes.now }
{
    written == bytes
}
