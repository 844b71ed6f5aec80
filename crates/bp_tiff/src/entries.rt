// The entries of the directory of a page file (TIFF 6.0, section 2, IFD Entry, and section 8).
ghost use Rattle.std.specs.Prelude.{◌≡◌};
ghost use Rattle.bp_tiff.specs.declared.form.Form.TheVariants.{Plain, G4};
ghost use Rattle.bp_tiff.specs.Entries.{short as short_entry, long as long_entry, ratio as ratio_entry, entries};

use crate::fields::{Fields, code_of_unit};
use crate::places::{
    G4_STRIP_AT, G4_XRES_AT, G4_YRES_AT, PLAIN_STRIP_AT, PLAIN_XRES_AT, PLAIN_YRES_AT,
};
use crate::tags::*;

/// A value of an entry, or where it stands in the file.
#[derive(Clone, Copy)]
pub enum Value {
    Short(u16),
    Long(u32),
    RationalAt(u32),
}

/// An entry, with one value.
#[derive(Clone, Copy)]
pub struct Entry {
    pub tag: u16,
    pub value: Value,
}

/// The entries of a plain file, in the order of their tags.
pub fn plain_entries(fields: &Fields, strip_bytes: u32) -> [Entry; 13]
    ensures { result ≡ entries Plain fields.now strip_bytes }
{
    [
        long(IMAGE_WIDTH, fields.width),
        long(IMAGE_LENGTH, fields.height),
        short(BITS_PER_SAMPLE, 1),
        short(COMPRESSION, 1),
        short(PHOTOMETRIC, 0),
        short(FILL_ORDER, 1),
        long(STRIP_OFFSETS, PLAIN_STRIP_AT),
        short(SAMPLES_PER_PIXEL, 1),
        long(ROWS_PER_STRIP, fields.height),
        long(STRIP_BYTE_COUNTS, strip_bytes),
        ratio(X_RESOLUTION, PLAIN_XRES_AT),
        ratio(Y_RESOLUTION, PLAIN_YRES_AT),
        short(RESOLUTION_UNIT, code_of_unit(fields.unit)),
    ]
}

/// The entries of a file of the form G4, in the order of their tags.
pub fn g4_entries(fields: &Fields, strip_bytes: u32) -> [Entry; 14]
    ensures { result ≡ entries G4 fields.now strip_bytes }
{
    [
        long(IMAGE_WIDTH, fields.width),
        long(IMAGE_LENGTH, fields.height),
        short(BITS_PER_SAMPLE, 1),
        short(COMPRESSION, 4),
        short(PHOTOMETRIC, 0),
        short(FILL_ORDER, 1),
        long(STRIP_OFFSETS, G4_STRIP_AT),
        short(SAMPLES_PER_PIXEL, 1),
        long(ROWS_PER_STRIP, fields.height),
        long(STRIP_BYTE_COUNTS, strip_bytes),
        ratio(X_RESOLUTION, G4_XRES_AT),
        ratio(Y_RESOLUTION, G4_YRES_AT),
        long(T6_OPTIONS, 0),
        short(RESOLUTION_UNIT, code_of_unit(fields.unit)),
    ]
}

fn short(tag: u16, n: u16) -> Entry
    ensures { result ≡ short_entry tag n }
{
    Entry {
        tag,
        value: Value::Short(n),
    }
}

fn long(tag: u16, n: u32) -> Entry
    ensures { result ≡ long_entry tag n }
{
    Entry {
        tag,
        value: Value::Long(n),
    }
}

fn ratio(tag: u16, at: u32) -> Entry
    ensures { result ≡ ratio_entry tag at }
{
    Entry {
        tag,
        value: Value::RationalAt(at),
    }
}
