// Where the parts of a page file stand, in bytes from its first.
ghost use Rattle.std.specs.Prelude.{◌≡◌};
ghost use Rattle.bp_tiff.specs.Places.{strip_at};

use crate::form::Form;

/// How many bytes the header has.
pub const HEADER_BYTES: usize = 8;
/// The number in the header that tells a TIFF file.
pub const MAGIC: u16 = 42;
/// How many bytes an entry has.
pub const ENTRY_BYTES: usize = 12;

/// The directory of a file that is written.
pub const DIRECTORY_AT: u32 = 8;

/// In a plain file, which has thirteen entries: the resolution across.
pub const PLAIN_XRES_AT: u32 = 170;
/// The resolution down.
pub const PLAIN_YRES_AT: u32 = 178;
/// The strip, which ends the file.
pub const PLAIN_STRIP_AT: u32 = 186;

/// In a file of the form G4, which has fourteen entries: the resolution across.
pub const G4_XRES_AT: u32 = 182;
/// The resolution down.
pub const G4_YRES_AT: u32 = 190;
/// The strip, which ends the file.
pub const G4_STRIP_AT: u32 = 198;

/// How many bytes stand before the strip of a file.
pub fn bytes_of_head(form: Form) -> u32
    ensures { result ≡ strip_at form }
{
    match form {
        Form::Plain => PLAIN_STRIP_AT,
        Form::G4 => G4_STRIP_AT,
    }
}
