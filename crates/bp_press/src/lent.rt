// What a volume shows of the tables, lent piece by piece. Nothing here is given an allocator or can
// refuse, so nothing that sees a covered pixel, a covered word, a held value or anything of a withheld
// document can tell of it by want of memory.
ghost use Rattle.std.specs.Prelude.{◌≡◌, ◌<◌, All, IsTrue, Some, length, slice_index_or, unwrap_or, []};
ghost use Rattle.std.specs.List.{list_any};
ghost use Rattle.std.specs.Option.{option_copied};
ghost use Rattle.bp_rows.specs.Image.{IsPage};
ghost use Rattle.bp_rows.specs.Limits.{sides_are_imported};
ghost use Rattle.bp_text.specs.Kept.{is_touched};
ghost use Rattle.bp_freeze.specs.Agree.{held_of_number, rects_on, value_of_field};
ghost use Rattle.bp_matter.specs.Images.{in_frame};
ghost use Rattle.bp_press.specs.Contents.{value_by};
ghost use Rattle.bp_press.specs.Jobs.{IsCodable, page_of_job, sheet_frame};
ghost use Rattle.bp_press.specs.Shown.{CanBeCoded, Lends, covers, image_lent, rows_lent, shown_words, value_lent, words_left};
ghost use Rattle.bp_press.specs.declared.jobs.Job.{Job as AnyJob};

use crate::gate::Gate;
use crate::jobs::Job;
use bp_burn::{BAND_ROWS, CoveredRows, OutRoom, SLIP_DOTS, SLIP_HEIGHT, SLIP_WIDTH};
use bp_core::{Basis, DocNo, Ink, PageNo, Rect, StampList, Text};
use bp_matter::{BoxRow, Frame, HeldList, HeldRow, Item, KeptPage, Tables};
use bp_rows::{Res, Unit};
use bp_text::Word;

// ---- words

// The words of a page that no box touches.
#[derive(Clone, Copy)]
pub(crate) struct KeptWords<'w> {
    words: &'w [Word],
    boxes: &'w [BoxRow],
    page: PageNo,
}

// The words of a page of an item that no box of the item touches.
pub(crate) fn words_of<'w>(tables: &'w Tables, item: &'w Item, page: PageNo) -> KeptWords<'w>
    ensures { words_left result ≡ shown_words tables.now.matter item.now page.0 }
{
    let words: &[Word] = match tables.words_with(item.doc, page) {
        Some(row) => row.words.as_slice(),
        None => &[],
    };
    KeptWords {
        words,
        boxes: item.boxes.as_slice(),
        page,
    }
}

impl<'w> KeptWords<'w> {
    // The next word, if there is one.
    pub(crate) fn next(&mut self) -> Option<&'w Word>
        ensures { Lends (words_left self.old) (option_copied result) (words_left self.new) }
    {
        while let Some((word, others)) = self.words.split_first() {
            self.words = others;
            if !is_covered(&word.rect, self.boxes, self.page) {
                return Some(word);
            }
        }
        None
    }
}

// Whether a box of that page touches a rectangle.
fn is_covered(rect: &Rect, boxes: &[BoxRow], page: PageNo) -> bool
    ensures { result ≡ is_touched rect.now (rects_on boxes.now page.0) }
{
    some_covers(boxes, page, rect)
}

// Whether some box is one of that page, and touches a rectangle.
fn some_covers(boxes: &[BoxRow], page: PageNo, rect: &Rect) -> bool
    ensures { result ≡ list_any (λ box. covers box page.0 rect.now) boxes.now }
{
    boxes.iter().any(|row| covers(row, page, rect))
}

// Whether a box is one of that page, and touches a rectangle.
fn covers(row: &BoxRow, page: PageNo, rect: &Rect) -> bool
    ensures { result ≡ covers row.now page.0 rect.now }
{
    row.page.0 == page.0 && rect.touches(&row.rect)
}

// ---- values

// What stands for an item in a column.
#[derive(Clone, Copy)]
pub(crate) enum ShownValue<'v> {
    // There is no value.
    Nothing,
    // It is held, on this ground.
    Held(&'v HeldRow),
    // It isn't held.
    Value(&'v Text),
}

// What stands for an item in the column of the field of that number.
pub(crate) fn value_of<'v>(tables: &'v Tables, item: &'v Item, field: u32) -> ShownValue<'v>
    ensures { value_lent result ≡ value_by tables.now.matter item.now (Some field) }
{
    match held_for(&item.held, field) {
        Some(held) => ShownValue::Held(held),
        None => own_value(tables, item.doc, field),
    }
}

// The held field of that number.
fn held_for(held: &HeldList, field: u32) -> Option<&HeldRow>
    ensures { option_copied result ≡ held_of_number held.now field }
{
    held.as_slice().iter().find(|row| row.field == field)
}

// The value of a document in a field, if there is one.
fn own_value(tables: &Tables, doc: DocNo, field: u32) -> ShownValue<'_>
    ensures { value_lent result ≡ unwrap_or (value_of_field tables.now.matter doc.0 field) [] }
{
    let Some(row) = tables.doc_with(doc) else {
        return ShownValue::Nothing;
    };
    match row
        .values
        .as_slice()
        .get((field as usize).saturating_sub(1))
    {
        Some(value) => ShownValue::Value(value),
        None => ShownValue::Nothing,
    }
}

// ---- images

// The images of jobs.
#[derive(Clone, Copy)]
pub(crate) struct CoveredJobs<'a> {
    tables: &'a Tables,
    jobs: &'a [Job],
}

impl<'a> CoveredJobs<'a> {
    pub(crate) fn of(tables: &'a Tables, jobs: &'a [Job]) -> CoveredJobs<'a>
        ensures tables { result.tables.now ≡ tables.now }
        ensures jobs { result.jobs.now ≡ jobs.now }
    {
        CoveredJobs { tables, jobs }
    }

    // How many there are.
    pub(crate) fn len(&self) -> usize
        ensures { result ≡ length self.now.jobs.now }
    {
        self.jobs.len()
    }

    // The image of a job, its page covered, behind the gate, which the job enters by its number before
    // anything of it is lent. Jobs are counted from 0.
    pub(crate) fn image<G: Gate>(&self, gate: &G, job: usize) -> CoveredImage<'a>
        requires job { job < length self.now.jobs.now }
        requires codable { All (IsCodable self.now.tables.now.matter) self.now.jobs.now }
        ensures is { (d : AnyJob) → image_lent result
            ≡ page_of_job self.now.tables.now.matter (slice_index_or self.now.jobs.now job d) }
        ensures can { CanBeCoded result }
        ensures entered { G.entered gate.now job }
    {
        gate.enter(job);
        image_of(self.tables, &self.jobs[job])
    }
}

// The image of a job.
#[derive(Clone, Copy)]
pub(crate) enum CoveredImage<'a> {
    Page(CoveredPage<'a>),
    // The sheet that stands for a document withheld on this ground.
    Sheet {
        basis: Basis,
        label: &'a Text,
        designation: &'a Text,
    },
}

// A page under its stamps, with what stands in its band.
#[derive(Clone, Copy)]
pub(crate) struct CoveredPage<'a> {
    page: &'a KeptPage,
    ink: Ink,
    stamps: &'a StampList,
    pub(crate) label: &'a Text,
    pub(crate) designation: &'a Text,
}

// The image of a job, its page covered.
pub(crate) fn image_of<'a>(tables: &'a Tables, job: &'a Job) -> CoveredImage<'a>
    requires { IsCodable tables.now.matter job.now }
    ensures is { image_lent result ≡ page_of_job tables.now.matter job.now }
    ensures can { CanBeCoded result }
{
    tables.know_valid();
    match job {
        Job::Image {
            ink,
            doc,
            page,
            stamps,
            label,
            designation,
        } => match tables.kept(*doc, *page) {
            Some(scan) => CoveredImage::Page(CoveredPage {
                page: scan,
                ink: *ink,
                stamps,
                label,
                designation,
            }),
            None => unreachable!(),
        },
        Job::Slip {
            basis,
            label,
            designation,
        } => CoveredImage::Sheet {
            basis: *basis,
            label,
            designation,
        },
    }
}

impl<'a> CoveredPage<'a> {
    // What the page has beside its rows.
    pub(crate) fn frame(&self) -> Frame
        ensures frame { self.now.page.now ≡ in_frame result self.now.page.now.rows }
        ensures page { IsPage self.now.page.now }
    {
        self.page.frame()
    }

    // Its rows, to be lent covered, in room of its width.
    pub(crate) fn rows(&self, room: OutRoom) -> CoveredRows<'a>
        requires sides { IsTrue (sides_are_imported self.now.page.now.width self.now.page.now.height) }
        requires room { room ≡ self.now.page.now.width }
        ensures { result ≡ rows_lent self.now }
    {
        CoveredRows::over(
            room,
            self.ink,
            self.page.strip(),
            self.page.height(),
            self.stamps,
        )
    }
}

impl<'a> CoveredImage<'a> {
    // What the image has beside its rows: a page what the page of the document has, but for the rows of
    // the band.
    pub(crate) fn frame(&self) -> Frame
        requires { CanBeCoded self.now }
        ensures frame { image_lent self.now ≡ in_frame result (image_lent self.now).rows }
        ensures page { IsPage (image_lent self.now) }
    {
        match self {
            CoveredImage::Page(page) => {
                let frame = page.frame();
                Frame {
                    width: frame.width,
                    height: frame.height + BAND_ROWS,
                    xres: frame.xres,
                    yres: frame.yres,
                    unit: frame.unit,
                }
            }
            CoveredImage::Sheet { .. } => slip_frame(),
        }
    }
}

// What a sheet has beside its rows.
fn slip_frame() -> Frame
    ensures { result ≡ sheet_frame }
{
    let dots = Res {
        num: SLIP_DOTS,
        den: 1,
    };
    Frame {
        width: SLIP_WIDTH,
        height: SLIP_HEIGHT + BAND_ROWS,
        xres: dots,
        yres: dots,
        unit: Unit::Inch,
    }
}
