// The forms in which a page file is written.

/// How the strip of a page file holds the pixels (TIFF 6.0, section 8, Compression).
#[derive(Clone, Copy, Debug, PartialEq, Eq)]
pub enum Form {
    /// Packed rows, without compression (Compression 1).
    Plain,
    /// Codes of ITU-T T.6 (Compression 4; section 11, Group 4).
    G4,
}
