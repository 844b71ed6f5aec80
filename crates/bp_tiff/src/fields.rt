// What a page file says of its page beside the pixels.
ghost use Rattle.std.specs.Prelude.{◌≡◌};
ghost use Rattle.bp_tiff.specs.Tiff.{tiff_fields};
ghost use Rattle.bp_tiff.specs.Units.{unit_code, unit_of};

use bp_rows::{Page, Res, Unit};

/// The sides in pixels, the resolutions and their unit.
#[derive(Clone, Copy)]
pub struct Fields {
    pub width: u32,
    pub height: u32,
    pub xres: Res,
    pub yres: Res,
    pub unit: Unit,
}

/// The fields of a page.
pub fn fields_of_page(page: &Page) -> Fields
    ensures { result ≡ tiff_fields page.now }
{
    Fields {
        width: page.width(),
        height: page.height(),
        xres: page.xres(),
        yres: page.yres(),
        unit: page.unit(),
    }
}

/// The code of a unit in a file (TIFF 6.0, section 8, ResolutionUnit).
pub fn code_of_unit(unit: Unit) -> u16
    ensures { result ≡ unit_code unit }
{
    match unit {
        Unit::None => 1,
        Unit::Inch => 2,
        Unit::Centimetre => 3,
    }
}

/// The unit of that code.
pub fn unit_of_code(code: u32) -> Option<Unit>
    ensures { result ≡ unit_of code }
{
    match code {
        1 => Some(Unit::None),
        2 => Some(Unit::Inch),
        3 => Some(Unit::Centimetre),
        _ => None,
    }
}
