// A page kept as its strip.
ghost use Rattle.std.specs.Prelude.{◌≡◌, ◌<◌, ◌^◌, IfOk, IsTrue, length};
ghost use Rattle.bp_rows.specs.Image.{IsPage};
ghost use Rattle.bp_rows.specs.Limits.{sides_are_allowed};
ghost use Rattle.bp_t6.specs.Written.{bits_strip};
ghost use Rattle.bp_matter.specs.Images.{GivesRead, in_frame, lines_of};
ghost use Rattle.bp_matter.specs.Reading.{Gives};

use crate::images::{coded_again, is_strip};
use crate::read_fault::ReadFault;
use bp_codes::Fill;
use bp_core::{Bytes, OutOfMemory, Refusal};
use bp_rows::{Page, Res, Unit};
use bp_t6::laws::{strip_law, strip_size};
use bp_t6::{code_page, read_strip};
use std::alloc::Global;
use std::marker::Model;
use std::sync::Arc;

/// What a page has beside its rows: its sides in pixels, its resolutions and their unit.
#[derive(Clone, Copy, Debug, PartialEq, Eq)]
pub struct Frame {
    pub width: u32,
    pub height: u32,
    pub xres: Res,
    pub yres: Res,
    pub unit: Unit,
}

// The strip of a page, in the frame of the page.
#[derive(Debug, Drop)]
struct FramedStrip {
    frame: Frame,
    strip: Bytes,
}

// Clauses see the page whose strip it is.
impl Model for FramedStrip {
    ghost use Rattle.bp_matter.specs.Images.{IsKeptPage, image_kept};
    ghost use Rattle.bp_rows.specs.Image.{Image};

    ghost Value = { Image };

    ghost view = { λ k. image_kept k.frame k.strip };

    ghost invariant = { λ k. IsKeptPage (image_kept k.frame k.strip) k.strip };
}

/// A page that is kept as its T.6 strip and not as pixels. Several hold it and none changes it, so that
/// none needs a copy. Contracts see it as the page. It goes when the last of those who hold it is
/// dropped.
#[derive(Debug, Drop)]
pub struct KeptPage {
    kept: Arc<FramedStrip>,
}

impl Model for KeptPage {
    ghost use Rattle.std.specs.Arc.{arc_value};
    ghost use Rattle.bp_rows.specs.Image.{Image};

    ghost Value = { Image };

    ghost view = { λ k. arc_value k.kept };
}

impl KeptPage {
    /// The page, coded and held once.
    pub fn of(alloc: Global, page: &Page) -> Result<KeptPage, OutOfMemory>
        ensures { IfOk result (λ kept. kept ≡ page.now) }
    {
        hold(alloc, framed_strip(alloc, page)?)
    }

    /// The page in this frame that a strip holds, in whatever spelling of T.6, with the first bit the
    /// highest of its byte. Its rows are read and coded anew one at a time, without pixels. None where
    /// one of them breaks a rule.
    pub fn of_strip(
        alloc: Global,
        frame: Frame,
        bytes: &[u8],
    ) -> Result<Option<KeptPage>, OutOfMemory>
        requires sides { IsTrue (sides_are_allowed frame.width frame.height) }
        requires short { length bytes.now < 2 ^ 32 }
        ensures { IfOk result (GivesRead frame bytes.now) }
    {
        match strip_anew(alloc, frame, bytes)? {
            None => Ok(None),
            Some(strip) => Ok(Some(hold(alloc, strip)?)),
        }
    }

    /// The page in this frame whose strip these bytes are, as a kept row has them. They are copied, and
    /// not coded anew. Malformed says that no page of these sides has this strip: other spellings
    /// of T.6 are of no page.
    pub(crate) fn read(alloc: Global, frame: Frame, bytes: &[u8]) -> Result<KeptPage, ReadFault>
        ensures lines { Gives (λ p. p.rows) result (lines_of frame.width frame.height bytes.now) }
        ensures frame { IfOk result (λ p. p ≡ in_frame frame p.rows) }
    {
        Ok(hold(alloc, read_strip_in(alloc, frame, bytes)?)?)
    }

    /// The strip of the page, lent: its rows coded, the end of the facsimile block and zero bits to the
    /// byte (ITU-T T.6). It takes no memory.
    pub fn strip(&self) -> &[u8]
        ensures strip { result.now ≡ bits_strip self.now }
        ensures short { length result.now < 2 ^ 32 }
        ensures page { IsPage self.now }
    {
        self.kept.strip()
    }

    /// The page, read from its strip.
    pub fn page(&self, alloc: Global) -> Result<Page, OutOfMemory>
        ensures { IfOk result (λ page. page ≡ self.now) }
    {
        self.kept.page(alloc)
    }

    /// Its sides, resolutions and unit.
    pub fn frame(&self) -> Frame
        ensures frame { self.now ≡ in_frame result self.now.rows }
        ensures page { IsPage self.now }
    {
        self.kept.frame()
    }

    /// The width in pixels.
    pub fn width(&self) -> u32
        ensures width { result ≡ self.now.width }
        ensures page { IsPage self.now }
    {
        self.frame().width
    }

    /// The height in pixels.
    pub fn height(&self) -> u32
        ensures height { result ≡ self.now.height }
        ensures page { IsPage self.now }
    {
        self.frame().height
    }

    /// The same page, held once more. It takes no memory; OutOfMemory says that as many hold it as can
    /// be counted, 2^63.
    pub fn share(&self) -> Result<KeptPage, OutOfMemory>
        ensures { IfOk result (λ shared. shared ≡ self.now) }
    {
        match Arc::try_clone(&self.kept) {
            Ok(kept) => Ok(KeptPage { kept }),
            Err(_) => Err(OutOfMemory),
        }
    }
}

// A strip held by one.
fn hold(alloc: Global, strip: FramedStrip) -> Result<KeptPage, OutOfMemory>
    ensures { IfOk result (λ kept. kept ≡ strip) }
{
    match Arc::new(alloc, strip) {
        Ok(kept) => Ok(KeptPage { kept }),
        Err(_) => Err(OutOfMemory),
    }
}

// The page, coded.
fn framed_strip(alloc: Global, page: &Page) -> Result<FramedStrip, OutOfMemory>
    ensures { IfOk result (λ kept. kept ≡ page.now) }
{
    strip_law();
    let coded = code_page(alloc, page)?;
    // Behind the coder's bytes there is room; what is kept has none to spare.
    let strip = Bytes::from_vec(Vec::from_slice(alloc, coded.as_slice())?);
    let frame = Frame {
        width: page.width(),
        height: page.height(),
        xres: page.xres(),
        yres: page.yres(),
        unit: page.unit(),
    };
    Ok(FramedStrip { frame, strip })
}

// The strip of the rows that are read from these bytes, in this frame, where they are read.
fn strip_anew(alloc: Global, frame: Frame, bytes: &[u8]) -> Result<Option<FramedStrip>, OutOfMemory>
    requires sides { IsTrue (sides_are_allowed frame.width frame.height) }
    requires short { length bytes.now < 2 ^ 32 }
    ensures { IfOk result (GivesRead frame bytes.now) }
{
    strip_law();
    match coded_again(alloc, frame.width, frame.height, bytes)? {
        None => Ok(None),
        Some(written) => {
            // As behind the coder's bytes, there is room behind these.
            let strip = Bytes::from_vec(Vec::from_slice(alloc, written.as_slice())?);
            Ok(Some(FramedStrip { frame, strip }))
        }
    }
}

// These bytes, where they are the strip of a page in this frame.
fn read_strip_in(alloc: Global, frame: Frame, bytes: &[u8]) -> Result<FramedStrip, ReadFault>
    ensures lines { Gives (λ p. p.rows) result (lines_of frame.width frame.height bytes.now) }
    ensures frame { IfOk result (λ p. p ≡ in_frame frame p.rows) }
{
    if !is_strip(alloc, frame.width, frame.height, bytes)? {
        return Err(ReadFault::Malformed);
    }
    let strip = Bytes::from_vec(Vec::from_slice(alloc, bytes)?);
    Ok(FramedStrip { frame, strip })
}

impl FramedStrip {
    fn strip(&self) -> &[u8]
        ensures strip { result.now ≡ bits_strip self.now }
        ensures short { length result.now < 2 ^ 32 }
        ensures page { IsPage self.now }
    {
        strip_size();
        self.strip.as_slice()
    }

    fn frame(&self) -> Frame
        ensures frame { self.now ≡ in_frame result self.now.rows }
        ensures page { IsPage self.now }
    {
        self.frame
    }

    fn page(&self, alloc: Global) -> Result<Page, OutOfMemory>
        ensures { IfOk result (λ page. page ≡ self.now) }
    {
        strip_law();
        let frame = self.frame();
        match read_strip(alloc, self.strip(), Fill::High, frame.width, frame.height) {
            Ok(page) => Ok(page.with_resolutions(frame.xres, frame.yres, frame.unit)),
            Err(Refusal::OutOfMemory) => Err(OutOfMemory),
            // The strip of a page breaks no rule.
            Err(Refusal::Rule(_)) => unreachable!(),
        }
    }
}
