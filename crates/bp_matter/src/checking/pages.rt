// Whether rows are the pages of a matter, and where a page is.
ghost use Rattle.std.specs.List.{list_all};
ghost use Rattle.std.specs.Option.{option_copied};
ghost use Rattle.std.specs.Prelude.{IsTrue, Some, length, nat_le, ◌*◌, ◌<◌, ◌^◌, ◌≡◌, ◌≤◌};
ghost use Rattle.bp_core.specs.Sorted.{ascends};
ghost use Rattle.bp_matter.specs.Written.{page_written};
ghost use Rattle.bp_matter.specs.Matter.{page_key};
ghost use Rattle.bp_matter.specs.ValidPages.{PageFacts, are_paged, has_rows, inside_page, page_in, page_fits, pixels_of, strip_bytes_of, strip_size, strips_fit};

use crate::limits::{MAX_FREE_PIXELS, MAX_PAGES, MAX_PIXELS, MAX_STRIP_BYTES};
use crate::rows::{DocRow, PageRow};
use bp_core::{DocNo, Keyed, PageNo, Rect, ascends, find_row, two_keys};
use bp_rows::import_sides;

// Whether the next rows, so many, have the keys from this one on.
fn has_rows<T: Keyed>(rows: &[T], count: u32, first: u128) -> bool
    requires { first < 2 ^ 100 }
    ensures test { result ≡ has_rows T.key_of count first rows.now }
    ensures enough { IsTrue result → count ≤ length rows.now }
{
    let mut left = count;
    let mut key = first;
    let mut rest = rows;
    while left > 0 {
        let Some((row, others)) = rest.split_first() else {
            return false;
        };
        if row.key() != key {
            return false;
        }
        left -= 1;
        key += 1;
        rest = others;
    }
    true
}

pub(crate) fn are_paged<T: Keyed>(docs: &[DocRow], rows: &[T]) -> bool
    ensures { result ≡ are_paged T.key_of docs.now rows.now }
{
    let mut left = docs;
    let mut rest = rows;
    while let Some((doc, others)) = left.split_first() {
        if !has_rows(rest, doc.pages, two_keys(doc.doc.0, 1)) {
            return false;
        }
        rest = &rest[doc.pages as usize..];
        left = others;
    }
    rest.is_empty()
}

fn pixels(row: &PageRow) -> u64
    ensures { result ≡ row.now.image.width * row.now.image.height }
{
    let page = &row.image;
    u64::from(page.width()) * u64::from(page.height())
}

fn pixels_of(pages: &[PageRow]) -> u128
    ensures { result ≡ pixels_of pages.now }
{
    let mut sum = 0;
    let mut rest = pages;
    while let Some((first, others)) = rest.split_first() {
        sum += u128::from(pixels(first));
        rest = others;
    }
    sum
}

fn pixels_few(pages: &[PageRow]) -> bool
    ensures { result ≡ nat_le (pixels_of pages.now) MAX_PIXELS }
{
    pixels_of(pages) <= MAX_PIXELS
}

fn strip_size(row: &PageRow) -> u64
    ensures { result ≡ strip_size row.now.image }
{
    row.image.strip().len() as u64
}

fn strip_bytes_of(pages: &[PageRow]) -> u128
    ensures { result ≡ strip_bytes_of pages.now }
{
    let mut sum = 0;
    let mut rest = pages;
    while let Some((first, others)) = rest.split_first() {
        sum += u128::from(strip_size(first));
        rest = others;
    }
    sum
}

// Whether the strips are few bytes, or of few pixels.
fn strips_few(pages: &[PageRow]) -> bool
    ensures { result ≡ strips_fit (pixels_of pages.now) (strip_bytes_of pages.now) }
{
    pixels_of(pages) <= MAX_FREE_PIXELS || strip_bytes_of(pages) <= MAX_STRIP_BYTES
}

fn page_fits(row: &PageRow) -> bool
    ensures { result ≡ page_fits row.now }
{
    let page = &row.image;
    import_sides(page.width(), page.height())
}

fn pages_fit(rows: &[PageRow]) -> bool
    ensures { result ≡ list_all page_fits rows.now }
{
    rows.iter().all(|row| page_fits(row))
}

fn pages_few(rows: &[PageRow]) -> bool
    ensures { result ≡ nat_le (length rows.now) MAX_PAGES }
{
    rows.len() <= MAX_PAGES
}

pub(crate) fn pages_valid(docs: &[DocRow], pages: &[PageRow]) -> bool
    requires written { IsTrue (list_all page_written pages.now) }
    ensures order { IsTrue result → IsTrue (ascends page_key 0 pages.now) }
    ensures fact { IsTrue result → PageFacts docs.now pages.now }
    ensures back { PageFacts docs.now pages.now → IsTrue result }
{
    if !ascends(pages) {
        return false;
    }
    if !pages_few(pages) {
        return false;
    }
    if !are_paged(docs, pages) {
        return false;
    }
    if !pixels_few(pages) {
        return false;
    }
    if !strips_few(pages) {
        return false;
    }
    pages_fit(pages)
}

pub(crate) fn inside_page(page: Option<&PageRow>, rect: Rect) -> bool
    ensures { result ≡ inside_page (option_copied page.entry) rect }
{
    match page {
        None => false,
        Some(row) => inside(row, rect),
    }
}

// Whether no pixel of the rectangle passes an edge of the page.
fn inside(row: &PageRow, rect: Rect) -> bool
    ensures { result ≡ inside_page (Some row.now) rect }
{
    let page = &row.image;
    rect.inside(page.width(), page.height())
}

pub(crate) fn page_in(pages: &[PageRow], doc: DocNo, page: PageNo) -> Option<&PageRow>
    requires { IsTrue (ascends page_key 0 pages.now) }
    ensures { option_copied result ≡ page_in pages.now doc.0 page.0 }
{
    find_row(pages, two_keys(doc.0, page.0))
}
