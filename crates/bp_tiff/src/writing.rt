// Page files written.
ghost use Rattle.std.specs.Prelude.{◌≡◌, ◌++◌, ◌<◌, ◌^◌, length, IfOk};
ghost use Rattle.bp_rows.specs.Image.{Image};
ghost use Rattle.bp_tiff.specs.declared.fields.Fields.{Fields as Said};
ghost use Rattle.bp_tiff.specs.declared.form.Form.TheVariants.{G4};
ghost use Rattle.bp_tiff.specs.Parts.{bytes_in, file_in};
ghost use Rattle.bp_tiff.specs.Tiff.{tiff_fields, head_of, strip_of, tiff_of};

use crate::fields::{Fields, fields_of_page};
use crate::form::Form;
use crate::head::put_head;
use crate::places::bytes_of_head;
use bp_core::{Bytes, OutOfMemory};
use bp_rows::{Page, Res, Unit};
use bp_t6::code_page;
use std::alloc::Global;

/// The strip of a page file: the page's own bytes, or codes that were made of them.
#[derive(Debug, Drop)]
pub enum Strip<'a> {
    Lent(&'a [u8]),
    Made(Bytes),
}

impl<'a> Strip<'a> {
    /// Its bytes.
    pub fn as_slice(&self) -> &[u8]
        ensures { result.now ≡ bytes_in self.now }
    {
        match self {
            Strip::Lent(bytes) => bytes,
            Strip::Made(bytes) => bytes.as_slice(),
        }
    }
}

/// A page file in two parts: what stands before the strip, and the strip, which ends the file.
#[derive(Debug, Drop)]
pub struct TiffParts<'a> {
    pub head: Bytes,
    pub strip: Strip<'a>,
}

/// The TIFF file of a page: the least byte first, and one strip, which ends the file (TIFF 6.0,
/// sections 2, 3, 8 and 11).
///
/// ```text
/// let page = Page::white(alloc, 8, 1, res, res, Unit::Inch)?;
/// write_tiff(alloc, Form::Plain, &page)?.len(); // 187: a head of 186 bytes, and one of rows
/// write_tiff(alloc, Form::G4, &page)?.len(); // 202: a head of 198 bytes, and four of codes
/// ```
pub fn write_tiff(alloc: Global, form: Form, page: &Page) -> Result<Bytes, OutOfMemory>
    ensures { IfOk result (λ bytes. bytes ≡ tiff_of form page.now) }
{
    file_of_parts(tiff_parts(alloc, form, page)?)
}

/// The same file in its two parts. The strip of a plain file is lent, so a page that is written
/// part by part isn't copied.
pub fn tiff_parts<'a>(
    alloc: Global,
    form: Form,
    page: &'a Page,
) -> Result<TiffParts<'a>, OutOfMemory>
    ensures { IfOk result (λ parts. file_in parts ≡ tiff_of form page.now) }
{
    let strip = strip_of_page(alloc, form, page)?;
    with_head(alloc, form, &fields_of_page(page), strip)
}

/// The TIFF file in Group 4 of a page of these sides in pixels, these resolutions across and down
/// and their unit, whose strip of codes is there already (ITU-T T.6; TIFF 6.0, section 11).
pub fn write_strip(
    alloc: Global,
    width: u32,
    height: u32,
    xres: Res,
    yres: Res,
    unit: Unit,
    strip: &[u8],
) -> Result<Bytes, OutOfMemory>
    // A file tells the length of its strip in 32 bits. The strip of any page fits.
    requires { length strip.now < 2 ^ 32 }

    // Of each page of these fields whose strip it is, this is the file.
    ensures { let said : Said =
        record { width = width; height = height; xres = xres; yres = yres; unit = unit } in
        (p : Image) → tiff_fields p ≡ said
        → strip.now ≡ strip_of G4 p
        → IfOk result (λ bytes. bytes ≡ tiff_of G4 p) }
{
    let fields = Fields {
        width,
        height,
        xres,
        yres,
        unit,
    };
    let parts = with_head(alloc, Form::G4, &fields, Strip::Lent(strip))?;
    file_of_parts(parts)
}

// A strip, and before it what a file of these fields says of it.
fn with_head<'a>(
    alloc: Global,
    form: Form,
    fields: &Fields,
    strip: Strip<'a>,
) -> Result<TiffParts<'a>, OutOfMemory>
    requires { length (bytes_in strip) < 2 ^ 32 }
    ensures { let bytes = bytes_in strip.entry in
        IfOk result (λ parts.
        file_in parts ≡ head_of form fields.now (length bytes) ++ bytes) }
{
    let size = strip.as_slice().len() as u32;
    let mut head = Vec::with_capacity(alloc, bytes_of_head(form) as usize)?;
    put_head(&mut head, form, fields, size)?;
    Ok(TiffParts {
        head: Bytes::from_vec(head),
        strip,
    })
}

// Both parts in one.
fn file_of_parts(parts: TiffParts<'_>) -> Result<Bytes, OutOfMemory>
    ensures { IfOk result (λ bytes. bytes ≡ file_in parts.entry) }
{
    let mut file = parts.head.into_vec();
    file.extend_from_slice(parts.strip.as_slice())?;
    Ok(Bytes::from_vec(file))
}

fn strip_of_page<'a>(alloc: Global, form: Form, page: &'a Page) -> Result<Strip<'a>, OutOfMemory>
    ensures gives { IfOk result (λ strip. bytes_in strip ≡ strip_of form page.now) }
    ensures fits { IfOk result (λ strip. length (bytes_in strip) < 2 ^ 32) }
{
    match form {
        Form::Plain => Ok(Strip::Lent(page.strip())),
        Form::G4 => Ok(Strip::Made(code_page(alloc, page)?)),
    }
}
