// A sum that tells lists of texts apart.

/// The sum of what came before and of a text: each byte and its end count by their places.
pub fn with_text(sum: u64, text: &[u8]) -> u64 {
    let mut sum = sum;
    for byte in text {
        sum = sum.wrapping_mul(31).wrapping_add(u64::from(*byte));
    }
    sum.wrapping_mul(31).wrapping_add(256)
}
