// The boxes of a page with their grounds, and the files of images that go out, of their strips.
ghost use Rattle.std.specs.Prelude.{◌≡◌, IfOk};
ghost use Rattle.bp_press.specs.Contents.{stamps_on};
ghost use Rattle.bp_press.specs.Shown.{CanBeCoded, image_lent};
ghost use Rattle.bp_t6.specs.Written.{bits_strip};
ghost use Rattle.bp_tiff.specs.Tiff.{tiff_of};

use crate::lent::CoveredImage;
use bp_core::{Bytes, ListOf, OutOfMemory, PageNo, Stamp, StampList};
use bp_matter::BoxList;
use bp_t6::laws::strip_size;
use bp_tiff::{Form, write_strip};
use std::alloc::Global;

// The boxes on a page, each with its ground.
pub(crate) fn stamps_on(
    alloc: Global,
    boxes: &BoxList,
    page: PageNo,
) -> Result<StampList, OutOfMemory>
    ensures { IfOk result (λ stamps. stamps ≡ stamps_on boxes.now page.0) }
{
    let mut stamps = Vec::new(alloc);
    for row in boxes.as_slice() {
        if row.page.0 == page.0 {
            stamps.push(Stamp {
                rect: row.rect,
                basis: row.basis,
            })?;
        }
    }
    Ok(ListOf::from_vec(stamps))
}

// The file of an image that is lent, of its strip.
pub(crate) fn image_file(
    alloc: Global,
    image: CoveredImage<'_>,
    strip: &[u8],
) -> Result<Bytes, OutOfMemory>
    requires can { CanBeCoded image }
    requires strip { strip.now ≡ bits_strip (image_lent image) }
    ensures { IfOk result (λ bytes. bytes ≡ tiff_of Form.G4 (image_lent image.entry)) }
{
    strip_size();
    let frame = image.frame();
    write_strip(
        alloc,
        frame.width,
        frame.height,
        frame.xres,
        frame.yres,
        frame.unit,
        strip,
    )
}
