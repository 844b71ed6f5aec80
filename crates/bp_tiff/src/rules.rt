// The rules that a file can break.
ghost use Rattle.std.specs.Prelude.{◌≡◌};
ghost use Rattle.bp_tiff.specs.Rules.{tiff_head, many_pages, tiff_strips, tiff_bounds, tiff_missing, tiff_type, tiff_meaning, tiff_compression, with_value};

use bp_core::{Rule, RuleKind};

/// No TIFF header.
pub fn head() -> Rule
    ensures { result ≡ tiff_head }
{
    Rule::bare(RuleKind::TiffHead)
}

/// More than one page.
pub fn more_pages() -> Rule
    ensures { result ≡ many_pages }
{
    Rule::bare(RuleKind::TiffManyPages)
}

/// Strips that are too few, too many or too short.
pub fn strips() -> Rule
    ensures { result ≡ tiff_strips }
{
    Rule::bare(RuleKind::TiffStrips)
}

/// What a tag names leaves the file; 0 is the directory.
pub fn bounds(tag: u16) -> Rule
    ensures { result ≡ tiff_bounds tag }
{
    of_value(RuleKind::TiffBounds, u32::from(tag))
}

/// A tag is missing.
pub fn missing(tag: u16) -> Rule
    ensures { result ≡ tiff_missing tag }
{
    of_value(RuleKind::TiffMissing, u32::from(tag))
}

/// A tag has another type or count.
pub fn kind(tag: u16) -> Rule
    ensures { result ≡ tiff_type tag }
{
    of_value(RuleKind::TiffType, u32::from(tag))
}

/// A tag has another value.
pub fn meaning(tag: u16) -> Rule
    ensures { result ≡ tiff_meaning tag }
{
    of_value(RuleKind::TiffMeaning, u32::from(tag))
}

/// Another compression.
pub fn compression(value: u32) -> Rule
    ensures { result ≡ tiff_compression value }
{
    of_value(RuleKind::TiffCompression, value)
}

fn of_value(kind: RuleKind, value: u32) -> Rule
    ensures { result ≡ with_value kind value }
{
    Rule {
        a: u64::from(value),
        ..Rule::bare(kind)
    }
}
