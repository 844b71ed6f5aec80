// The sides that a page may have, in pixels.
ghost use Rattle.std.specs.Prelude.{◌≡◌};
ghost use Rattle.bp_rows.specs.Limits.{sides_are_allowed, sides_are_imported};

/// The greatest width, in pixels.
pub const MAX_WIDTH: u32 = 20_000;

/// The greatest height, in pixels: the band below a produced page adds 32 rows to an imported one.
pub const MAX_HEIGHT: u32 = 20_032;

/// The most pixels of a page.
pub const MAX_PIXELS: u64 = 200_640_000;

/// The greatest height of a page that comes in, in pixels.
pub const MAX_IMPORT_HEIGHT: u32 = 20_000;

/// The most pixels of a page that comes in.
pub const MAX_IMPORT_PIXELS: u64 = 200_000_000;

/// Whether a page may have these sides, in pixels: 1 to 20,000 by 1 to 20,032, and at most
/// 200,640,000 pixels.
pub fn allowed_sides(width: u32, height: u32) -> bool
    ensures { result ≡ sides_are_allowed width height }
{
    0 < width
        && width <= MAX_WIDTH
        && 0 < height
        && height <= MAX_HEIGHT
        && u64::from(width) * u64::from(height) <= MAX_PIXELS
}

/// Whether a page of these sides, in pixels, may come in: 1 to 20,000 by 1 to 20,000, and at most
/// 200,000,000 pixels.
pub fn import_sides(width: u32, height: u32) -> bool
    ensures { result ≡ sides_are_imported width height }
{
    0 < width
        && width <= MAX_WIDTH
        && 0 < height
        && height <= MAX_IMPORT_HEIGHT
        && u64::from(width) * u64::from(height) <= MAX_IMPORT_PIXELS
}
