// White pages.
ghost use Rattle.std.specs.Prelude.{◌≡◌, IfOk, IsTrue};
ghost use Rattle.bp_rows.specs.Image.{white_image};
ghost use Rattle.bp_rows.specs.Limits.{sides_are_allowed};
ghost use Rattle.bp_rows.specs.declared.resolution.Unit.TheVariants.{Inch};
ghost use Rattle.bp_burn.specs.Band.{slip_resolution};

use bp_core::{OutOfMemory, Refusal};
use bp_rows::{Page, Res, Unit};
use std::alloc::Global;

/// The resolution of a slip sheet, in dots to the inch.
pub const SLIP_DOTS: u32 = 200;

/// A white page of these sides, at 200 dots to the inch.
pub fn white_page(alloc: Global, width: u32, height: u32) -> Result<Page, OutOfMemory>
    requires { IsTrue (sides_are_allowed width height) }
    ensures { IfOk result (λ p.
        p ≡ white_image width height slip_resolution slip_resolution Inch) }
{
    let dots = Res {
        num: SLIP_DOTS,
        den: 1,
    };
    match Page::white(alloc, width, height, dots, dots, Unit::Inch) {
        Ok(page) => Ok(page),
        Err(Refusal::OutOfMemory) => Err(OutOfMemory),
        Err(Refusal::Rule(_)) => unreachable!(),
    }
}
