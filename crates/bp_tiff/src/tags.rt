// The fields of a page file by their tags (TIFF 6.0, section 8; T6Options section 11), and the
// types of their values (section 2).

/// The columns.
pub const IMAGE_WIDTH: u16 = 256;
/// The rows.
pub const IMAGE_LENGTH: u16 = 257;
/// Bits for each sample.
pub const BITS_PER_SAMPLE: u16 = 258;
/// How the strip holds the pixels.
pub const COMPRESSION: u16 = 259;
/// Which value is white.
pub const PHOTOMETRIC: u16 = 262;
/// Which bit of a byte is the first.
pub const FILL_ORDER: u16 = 266;
/// Where each strip begins.
pub const STRIP_OFFSETS: u16 = 273;
/// Where the first row and column stand.
pub const ORIENTATION: u16 = 274;
/// Samples for each pixel.
pub const SAMPLES_PER_PIXEL: u16 = 277;
/// Rows of each strip but the last.
pub const ROWS_PER_STRIP: u16 = 278;
/// Bytes of each strip.
pub const STRIP_BYTE_COUNTS: u16 = 279;
/// Pixels for each unit of length, across.
pub const X_RESOLUTION: u16 = 282;
/// Pixels for each unit of length, down.
pub const Y_RESOLUTION: u16 = 283;
/// What else the codes of the strip may be (uncompressed mode).
pub const T6_OPTIONS: u16 = 293;
/// The unit of length.
pub const RESOLUTION_UNIT: u16 = 296;

/// RowsPerStrip where nothing is said of it: all rows in one strip.
pub const ALL_ROWS: u32 = 4_294_967_295;

/// The type of a number of 16 bits.
pub const SHORT: u16 = 3;
/// The type of a number of 32 bits.
pub const LONG: u16 = 4;
/// The type of a numerator and a denominator, each a LONG.
pub const RATIONAL: u16 = 5;
