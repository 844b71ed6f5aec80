// Page files read.
ghost use Rattle.std.specs.Prelude.{◌≡◌, ℕ, ◌+◌, ◌*◌, ◌≤◌, ◌<◌, [], not, true, false, Result, Ok, length, min, take, drop, IsTrue, IfOk, IfErr, if◌then◌else◌};
ghost use Rattle.std.specs.Result.{IsOk};
ghost use Rattle.std.specs.Vec.{vec_capacity};
ghost use Rattle.bp_codes.specs.declared.span.Fill.TheVariants.{High, Low};
ghost use Rattle.bp_core.specs.declared.rules.Rule.{Rule};
ghost use Rattle.bp_rows.specs.Bits.{row_bytes};
ghost use Rattle.bp_rows.specs.Image.{Image};
ghost use Rattle.bp_rows.specs.Limits.{sides_are_allowed};
ghost use Rattle.bp_core.specs.Answers.{Answers, IfRule};
ghost use Rattle.bp_tiff.specs.Appending.{HoldsAll, kept_fill, lines_in};
ghost use Rattle.bp_tiff.specs.declared.layout.Layout.{Layout as Laid};
ghost use Rattle.bp_tiff.specs.Layout.{IsLaid, layout_of};
ghost use Rattle.bp_tiff.specs.PageRules.{IsPageRule};
ghost use Rattle.bp_tiff.specs.Pixels.{bit_in, packed_values};
ghost use Rattle.bp_tiff.specs.Read.{page_of_layout, StripsBreak, TiffReads, TiffFault, TiffAnswers};
ghost use Rattle.bp_tiff.specs.Standing.{StandTogether};

use crate::laws::one_answer;
use crate::layout::{Coding, Layout, read_layout};
use crate::passes::{invert_bytes, reverse_bytes};
use crate::standing::place_of_rows;
use crate::strips::put_strips;
use bp_codes::Fill;
use bp_core::{OutOfMemory, Refusal};
use bp_rows::{Page, bytes_of_strip};
use std::alloc::Global;

/// The page of a file of one bilevel page, plain or in Group 4 (TIFF 6.0, sections 2, 3, 8 and 11;
/// ITU-T T.6), or the first rule that the bytes break: those of `read_layout` in their order, then
/// the first strip that is too short (TiffStrips) or whose codes break a rule of T.6, with the row,
/// counted from 0 in the page, and the bit, from 0 in the strip.
///
/// Memory is taken for the page alone, once its sides and the places of its strips were tested, and
/// never for a count that the file names.
pub fn read_tiff(alloc: Global, bytes: &[u8]) -> Result<Page, Refusal>
    // What is read is the page of the bytes.
    ensures found { IfOk result (λ p. TiffReads bytes.now p) }

    // A rule is the first that they break.
    ensures refused { IfErr result (IfRule (TiffFault bytes.now)) }

    // It is one of the sides, of T.6 or of TIFF.
    ensures kind { IfErr result (IfRule (λ rule. IsPageRule rule.kind)) }

    // The answer to the bytes is given, unless memory runs out.
    ensures exact { (answer : Result Image Rule) → TiffAnswers bytes.now answer
        → Answers (λ p. p) result answer }
{
    one_answer();
    read(alloc, bytes)
}

/// The same of a file that is handed over: where its rows stand in it without compression and one
/// behind another, as in most plain files, they become the page's in the memory that the file had,
/// and none is taken.
pub fn take_tiff(alloc: Global, file: Vec<u8>) -> Result<Page, Refusal>
    ensures found { IfOk result (λ p. TiffReads file.items p) }
    ensures refused { IfErr result (IfRule (TiffFault file.items)) }
    ensures kind { IfErr result (IfRule (λ rule. IsPageRule rule.kind)) }
    ensures exact { (answer : Result Image Rule) → TiffAnswers file.items answer
        → Answers (λ p. p) result answer }

    // Such a page is had without a want of memory.
    ensures given { (l : Laid) → layout_of file.items ≡ Ok l
        → StandTogether file.items l
        → IsOk result }
{
    one_answer();
    take_over(alloc, file)
}

fn read(alloc: Global, bytes: &[u8]) -> Result<Page, Refusal>
    ensures found { IfOk result (λ p. TiffReads bytes.now p) }
    ensures refused { IfErr result (IfRule (TiffFault bytes.now)) }
{
    let layout = match read_layout(bytes) {
        Ok(layout) => layout,
        Err(rule) => return Err(Refusal::Rule(rule)),
    };
    match rows_in(alloc, bytes, &layout) {
        Ok(rows) => Ok(page_of_rows(&layout, rows)),
        Err(refusal) => Err(refusal),
    }
}

fn take_over(alloc: Global, file: Vec<u8>) -> Result<Page, Refusal>
    ensures found { IfOk result (λ p. TiffReads file.items p) }
    ensures refused { IfErr result (IfRule (TiffFault file.items)) }
    ensures given { (l : Laid) → layout_of file.items ≡ Ok l
        → StandTogether file.items l
        → IsOk result }
{
    let layout = match read_layout(&file) {
        Ok(layout) => layout,
        Err(rule) => return Err(Refusal::Rule(rule)),
    };
    match rows_of(alloc, file, &layout) {
        Ok(rows) => Ok(page_of_rows(&layout, rows)),
        Err(refusal) => Err(refusal),
    }
}

// The packed rows of all strips.
fn rows_in(alloc: Global, bytes: &[u8], layout: &Layout) -> Result<Vec<u8>, Refusal>
    requires { IsLaid bytes.now layout.now }
    ensures found { IfOk result (λ rows. HoldsAll bytes.now layout.now rows.items) }
    ensures refused { let l = layout.now in
        IfErr result (IfRule (StripsBreak bytes.now l l.strips.count 0)) }
{
    let mut rows = empty_rows(alloc, bytes.len(), layout)?;
    match put_strips(alloc, bytes, layout, &mut rows) {
        Ok(()) => Ok(rows),
        Err(refusal) => Err(refusal),
    }
}

// The same of a file that is handed over.
fn rows_of(alloc: Global, file: Vec<u8>, layout: &Layout) -> Result<Vec<u8>, Refusal>
    requires { IsLaid file.items layout.now }
    ensures found { IfOk result (λ rows. HoldsAll file.items layout.now rows.items) }
    ensures refused { let l = layout.now in
        IfErr result (IfRule (StripsBreak file.items l l.strips.count 0)) }
    ensures given { StandTogether file.items layout.now → IsOk result }
{
    let size = bytes_of_strip(layout.sides.width, layout.sides.height);
    match place_of_rows(&file, layout) {
        Some(place) => Ok(part_of(file, place, size)),
        None => rows_in(alloc, &file, layout),
    }
}

// A part of the bytes, in their own memory.
fn part_of(mut bytes: Vec<u8>, place: usize, size: usize) -> Vec<u8>
    requires { place + size ≤ length bytes.items }
    ensures { result.items ≡ take size (drop place bytes.items) }
{
    bytes.copy_within(place..place + size, 0);
    bytes.truncate(size);
    bytes
}

// No rows yet, and room for as many as the file has bits, at most for those of the page. A row has
// a bit of the file at least, though strips may overlap, so a short file that names many rows takes
// little.
fn empty_rows(alloc: Global, file_bytes: usize, layout: &Layout) -> Result<Vec<u8>, OutOfMemory>
    ensures empty { IfOk result (λ rows. rows.items ≡ []) }
    ensures room { let count = min (8 * file_bytes) layout.now.sides.height in
        IfOk result (λ rows. vec_capacity rows ≡ count * row_bytes layout.now.sides.width) }
{
    let count = file_bytes
        .saturating_mul(8)
        .min(layout.sides.height as usize);
    let room = bytes_of_strip(layout.sides.width, count as u32);
    Ok(Vec::with_capacity(alloc, room)?)
}

// The page of packed rows, as they stand in the file or as they were decoded.
fn page_of_rows(layout: &Layout, mut rows: Vec<u8>) -> Page
    requires sides { IsTrue (sides_are_allowed layout.now.sides.width layout.now.sides.height) }
    requires long { length rows.items
        ≡ layout.now.sides.height * row_bytes layout.now.sides.width }
    ensures { result
        ≡ page_of_layout layout.now (lines_in layout.now layout.now.sides.height rows.items) }
{
    put_right(&mut rows, layout);
    Page::of_packed(
        layout.sides.width,
        layout.sides.height,
        layout.scale.xres,
        layout.scale.yres,
        layout.scale.unit,
        rows,
    )
}

// Packed rows as a page keeps them.
fn put_right(rows: &mut [u8], layout: &Layout)
    requires { length rows.old ≡ layout.now.sides.height * row_bytes layout.now.sides.width }
    ensures { let l = layout.now in
        packed_values High l.sides.width l.sides.height rows.new
        ≡ lines_in l l.sides.height rows.old }
{
    put_in_order(rows, &layout.coding);
    put_ink(rows, &layout.coding);
}

// The first pixel in the high bit.
fn put_in_order(rows: &mut [u8], coding: &Coding)
    ensures { (at : ℕ) → at < 8 * length rows.old
        → bit_in High rows.new at ≡ bit_in (kept_fill coding.now) rows.old at }
{
    if is_low(coding) {
        reverse_bytes(rows);
    }
}

// Whether the rows came with the first pixel in the low bit.
fn is_low(coding: &Coding) -> bool
    ensures low { result ≡ true → kept_fill coding.now ≡ Low }
    ensures high { result ≡ false → kept_fill coding.now ≡ High }
{
    if coding.is_t6 {
        return false;
    }
    match coding.fill {
        Fill::High => false,
        Fill::Low => true,
    }
}

// Black as 1.
fn put_ink(rows: &mut [u8], coding: &Coding)
    ensures { (at : ℕ) → at < 8 * length rows.old
        → bit_in High rows.new at
        ≡ (if coding.now.zero_is_black
        then not (bit_in High rows.old at)
        else bit_in High rows.old at) }
{
    if coding.zero_is_black {
        invert_bytes(rows);
    }
}
