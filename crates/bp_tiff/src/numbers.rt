// Numbers in a file, in its byte order.
ghost use Rattle.std.specs.Prelude.{◌≡◌, ◌+◌, ◌≤◌, length};
ghost use Rattle.bp_tiff.specs.Numbers.{short_at, long_at};

/// Which byte of a number comes first (TIFF 6.0, section 2, Image File Header).
#[derive(Clone, Copy, Debug, PartialEq, Eq)]
pub enum ByteOrder {
    /// The byte of least value: `II`.
    Little,
    /// The byte of highest value: `MM`.
    Big,
}

/// The number of two bytes at a place.
pub fn short(bytes: &[u8], order: ByteOrder, at: usize) -> u16
    requires { at + 2 ≤ length bytes.now }
    ensures { result ≡ short_at order bytes.now at }
{
    let both = [bytes[at], bytes[at + 1]];
    match order {
        ByteOrder::Little => u16::from_le_bytes(both),
        ByteOrder::Big => u16::from_be_bytes(both),
    }
}

/// The number of four bytes at a place.
pub fn long(bytes: &[u8], order: ByteOrder, at: usize) -> u32
    requires { at + 4 ≤ length bytes.now }
    ensures { result ≡ long_at order bytes.now at }
{
    let four = [bytes[at], bytes[at + 1], bytes[at + 2], bytes[at + 3]];
    match order {
        ByteOrder::Little => u32::from_le_bytes(four),
        ByteOrder::Big => u32::from_be_bytes(four),
    }
}
