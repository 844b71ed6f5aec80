// Passes over packed rows, byte by byte.
ghost use Rattle.std.specs.Prelude.{ℕ, ◌<◌, length, slice_index};
ghost use Rattle.bp_tiff.specs.Passed.{IsTurned, IsInverted};

/// Turns the bits of each byte round (TIFF 6.0, section 8, FillOrder).
pub fn reverse_bytes(rows: &mut [u8])
    ensures { (k : ℕ) → k < length rows.old
        → IsTurned (slice_index rows.old k) (slice_index rows.new k) }
{
    for byte in rows.iter_mut() {
        *byte = turned(*byte);
    }
}

// The byte with its bits in the other order: halves, quarters and single bits exchanged.
#[inline(always)]
fn turned(byte: u8) -> u8
    ensures { IsTurned byte result }
{
    let by_four = byte >> 4 | byte << 4;
    let by_two = (by_four & 0xCC) >> 2 | (by_four & 0x33) << 2;
    (by_two & 0xAA) >> 1 | (by_two & 0x55) << 1
}

/// Turns each bit over (TIFF 6.0, section 8, PhotometricInterpretation).
pub fn invert_bytes(rows: &mut [u8])
    ensures { (k : ℕ) → k < length rows.old
        → IsInverted (slice_index rows.old k) (slice_index rows.new k) }
{
    for byte in rows.iter_mut() {
        *byte = 255 - *byte;
    }
}
