// What a file says of its page beside the pixels: its tags in the order in which they are refused.
ghost use Rattle.std.specs.Prelude.{◌≡◌, ◌+◌, ◌*◌, ◌≤◌, ◌<◌, ◌^◌, length, IfOk, IsTrue, if◌then◌else◌};
ghost use Rattle.bp_rows.specs.Limits.{sides_are_allowed};
ghost use Rattle.bp_tiff.specs.Directory.{IsIn};
ghost use Rattle.bp_tiff.specs.Layout.{sides_of, compression_of, coding_of, strips_due, strips_of, scale_of, is_inside, are_inside, layout_of, IsLaid};
ghost use Rattle.bp_tiff.specs.Values.{HasValues};

use crate::directory::{Directory, read_directory};
use crate::fields::unit_of_code;
use crate::rules::{bounds, compression, meaning};
use crate::tags::{
    ALL_ROWS, BITS_PER_SAMPLE, COMPRESSION, FILL_ORDER, IMAGE_LENGTH, IMAGE_WIDTH, ORIENTATION,
    PHOTOMETRIC, RESOLUTION_UNIT, ROWS_PER_STRIP, SAMPLES_PER_PIXEL, STRIP_BYTE_COUNTS,
    STRIP_OFFSETS, X_RESOLUTION, Y_RESOLUTION,
};
use crate::values::{Values, number, number_among_these, resolution, strip_values};
use bp_codes::Fill;
use bp_core::Rule;
use bp_rows::{Res, Unit, allowed_sides};

/// The sides of a page, in pixels.
#[derive(Clone, Copy, Debug)]
pub struct Sides {
    pub width: u32,
    pub height: u32,
}

/// How the strips hold the pixels.
#[derive(Clone, Copy, Debug)]
pub struct Coding {
    /// Compression 4, and not 1.
    pub is_t6: bool,
    /// PhotometricInterpretation 1, and not 0.
    pub zero_is_black: bool,
    pub fill: Fill,
}

/// Where the strips stand. `offsets` and `lengths` have a value for each.
#[derive(Clone, Copy, Debug)]
pub struct Strips {
    /// How many rows each has but the last, which has those that are left.
    pub rows: u32,
    /// How many strips there are.
    pub count: u32,
    pub offsets: Values,
    pub lengths: Values,
}

/// The resolutions and their unit.
#[derive(Clone, Copy, Debug)]
pub struct Scale {
    pub xres: Res,
    pub yres: Res,
    pub unit: Unit,
}

/// All that a file says of its page beside the pixels.
#[derive(Clone, Copy, Debug)]
pub struct Layout {
    pub directory: Directory,
    pub sides: Sides,
    pub coding: Coding,
    pub strips: Strips,
    pub scale: Scale,
}

/// All that a file of one bilevel page says of it beside the pixels. It takes no memory.
///
/// `bytes` are the whole file (TIFF 6.0, sections 2, 8 and 11). The first entry of a tag counts,
/// and tags that aren't named here are skipped. The answer is the first of these rules that is
/// broken:
/// - TiffHead: fewer than 8 bytes, neither `II` nor `MM`, or not 42;
/// - TiffBounds with 0: the directory leaves the file; TiffManyPages: another one follows;
/// - of ImageWidth and ImageLength: PageLimit with both, where a page can't have these sides;
/// - of BitsPerSample, SamplesPerPixel, Orientation: TiffMeaning where the value isn't 1;
/// - of Compression: TiffCompression with the value, where it isn't 1 or 4;
/// - of PhotometricInterpretation: TiffMeaning where it isn't 0 or 1;
/// - of FillOrder: TiffMeaning where it isn't 1 or 2;
/// - of RowsPerStrip: TiffMeaning where it is 0;
/// - of StripOffsets, StripByteCounts: TiffStrips where there isn't one value for each strip;
/// - of XResolution, YResolution: any value is taken;
/// - of ResolutionUnit: TiffMeaning where it isn't 1, 2 or 3;
/// - TiffBounds with 273: a strip leaves the file.
///
/// Before the value of a tag is looked at: TiffMissing where it has no entry and can't be left out,
/// TiffType where its type isn't one that it may have or, besides the strips' tags, its count isn't
/// 1, and TiffBounds where its values leave the file, of the strips' tags after TiffStrips. These
/// and TiffMeaning name the tag.
#[tactic(auto, unfolding(crate::specs::Layout::layout_of))]
pub fn read_layout(bytes: &[u8]) -> Result<Layout, Rule>
    ensures gives { result ≡ layout_of bytes.now }
    ensures laid { IfOk result (IsLaid bytes.now) }
{
    let directory = read_directory(bytes)?;
    let sides = read_sides(bytes, &directory)?;
    let coding = read_coding(bytes, &directory)?;
    let strips = read_strips(bytes, &directory, sides.height)?;
    let scale = read_scale(bytes, &directory)?;
    if !strips_are_inside(bytes, &directory, &strips) {
        return Err(bounds(STRIP_OFFSETS));
    }
    Ok(Layout {
        directory,
        sides,
        coding,
        strips,
        scale,
    })
}

#[tactic(auto, unfolding(crate::specs::Layout::sides_of))]
fn read_sides(bytes: &[u8], directory: &Directory) -> Result<Sides, Rule>
    requires { IsIn bytes.now directory.now }
    ensures gives { result ≡ sides_of bytes.now directory.now }
    ensures allowed { IfOk result (λ s. IsTrue (sides_are_allowed s.width s.height)) }
{
    let width = number(bytes, directory, IMAGE_WIDTH, None)?;
    let height = number(bytes, directory, IMAGE_LENGTH, None)?;
    if !allowed_sides(width, height) {
        return Err(Rule::page_limit(width, height));
    }
    Ok(Sides { width, height })
}

fn t6_compression(bytes: &[u8], directory: &Directory) -> Result<bool, Rule>
    requires { IsIn bytes.now directory.now }
    ensures { result ≡ compression_of bytes.now directory.now }
{
    let value = number(bytes, directory, COMPRESSION, None)?;
    if value != 1 && value != 4 {
        return Err(compression(value));
    }
    Ok(value == 4)
}

#[tactic(auto, unfolding(crate::specs::Layout::coding_of))]
fn read_coding(bytes: &[u8], directory: &Directory) -> Result<Coding, Rule>
    requires { IsIn bytes.now directory.now }
    ensures { result ≡ coding_of bytes.now directory.now }
{
    number_among_these(bytes, directory, BITS_PER_SAMPLE, Some(1), &[1])?;
    number_among_these(bytes, directory, SAMPLES_PER_PIXEL, Some(1), &[1])?;
    number_among_these(bytes, directory, ORIENTATION, Some(1), &[1])?;
    let is_t6 = t6_compression(bytes, directory)?;
    let photometric = number_among_these(bytes, directory, PHOTOMETRIC, None, &[0, 1])?;
    let order = number_among_these(bytes, directory, FILL_ORDER, Some(1), &[1, 2])?;
    Ok(Coding {
        is_t6,
        zero_is_black: photometric == 1,
        fill: if order == 2 { Fill::Low } else { Fill::High },
    })
}

#[tactic(auto, unfolding(crate::specs::Layout::strips_of))]
fn read_strips(bytes: &[u8], directory: &Directory, height: u32) -> Result<Strips, Rule>
    requires directory { IsIn bytes.now directory.now }
    ensures gives { result ≡ strips_of bytes.now directory.now height }
    ensures offsets { IfOk result (λ s. HasValues bytes.now s.offsets s.count) }
    ensures lengths { IfOk result (λ s. HasValues bytes.now s.lengths s.count) }
    ensures rows { IfOk result (λ s. 0 < s.rows) }
    ensures count { IfOk result (λ s. s.count ≡ strips_due height s.rows) }
{
    let rows = number(bytes, directory, ROWS_PER_STRIP, Some(ALL_ROWS))?;
    if rows == 0 {
        return Err(meaning(ROWS_PER_STRIP));
    }
    let count = ((u64::from(height) + u64::from(rows) - 1) / u64::from(rows)) as u32;
    let offsets = strip_values(bytes, directory, STRIP_OFFSETS, count)?;
    let lengths = strip_values(bytes, directory, STRIP_BYTE_COUNTS, count)?;
    Ok(Strips {
        rows,
        count,
        offsets,
        lengths,
    })
}

#[tactic(auto, unfolding(crate::specs::Layout::scale_of))]
fn read_scale(bytes: &[u8], directory: &Directory) -> Result<Scale, Rule>
    requires { IsIn bytes.now directory.now }
    ensures { result ≡ scale_of bytes.now directory.now }
{
    let xres = resolution(bytes, directory, X_RESOLUTION)?;
    let yres = resolution(bytes, directory, Y_RESOLUTION)?;
    let code = number(bytes, directory, RESOLUTION_UNIT, Some(2))?;
    let unit = unit_of_code(code).ok_or(meaning(RESOLUTION_UNIT))?;
    Ok(Scale { xres, yres, unit })
}

// Whether each strip ends within the file.
fn strips_are_inside(bytes: &[u8], directory: &Directory, strips: &Strips) -> bool
    requires offsets { HasValues bytes.now strips.now.offsets strips.now.count }
    requires lengths { HasValues bytes.now strips.now.lengths strips.now.count }
    ensures { result ≡ are_inside bytes.now directory.now strips.now strips.now.count 0 }
{
    for k in 0..strips.count {
        if !strip_is_inside(bytes, directory, strips, k) {
            return false;
        }
    }
    true
}

fn strip_is_inside(bytes: &[u8], directory: &Directory, strips: &Strips, k: u32) -> bool
    requires offsets { HasValues bytes.now strips.now.offsets (k + 1) }
    requires lengths { HasValues bytes.now strips.now.lengths (k + 1) }
    ensures { result ≡ is_inside bytes.now directory.now strips.now k }
{
    let offset = strips.offsets.at(bytes, directory, k) as usize;
    let length = strips.lengths.at(bytes, directory, k) as usize;
    offset + length <= bytes.len()
}
