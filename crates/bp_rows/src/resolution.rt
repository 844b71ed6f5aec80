// Resolutions of a page, as its file gives them.

/// Pixels to a unit of length, as a fraction (TIFF 6.0, section 8, XResolution).
#[derive(Clone, Copy, Debug, PartialEq, Eq)]
pub struct Res {
    pub num: u32,
    pub den: u32,
}

/// The unit of length of a page's resolutions (TIFF 6.0, section 8, ResolutionUnit).
#[derive(Clone, Copy, Debug, PartialEq, Eq)]
pub enum Unit {
    None,
    Inch,
    Centimetre,
}
