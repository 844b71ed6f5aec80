// The kept rows of a made matter: a lead and a reviewer, a field, and documents of one page, each a
// family by itself, without words.
use bp_core::{Bytes, ListOf, OutOfMemory, Row, RowList};
use bp_rows::Page;
use bp_t6::code_page;
use sha2::{Digest, Sha256};
use std::alloc::{AllocError, Global};

/// The key of the reviewer.
pub const REVIEWER: &[u8] = b"the key of Ellis";

/// The SHA-256 of the key of the reviewer.
pub fn reviewer() -> [u8; 32] {
    Sha256::digest(REVIEWER)
}

/// The rows of so many documents, with this image on each page.
pub fn rows_of(alloc: Global, image: &Page, docs: u32) -> Result<RowList, OutOfMemory> {
    let page = page_of(alloc, image)?;
    let mut rows = Vec::new(alloc);
    add_rows(&mut rows, alloc, page.as_slice(), docs)?;
    Ok(ListOf::from_vec(rows))
}

fn add_rows(rows: &mut Vec<Row>, alloc: Global, page: &[u8], docs: u32) -> Result<(), AllocError> {
    add_row(rows, 1, 1, 0, staff_body(alloc, 2, &[1; 32], "lead")?)?;
    add_row(rows, 1, 2, 0, staff_body(alloc, 0, &reviewer(), "Ellis")?)?;
    add_row(rows, 2, 1, 0, field_body(alloc)?)?;
    for doc in 1..=docs {
        add_row(rows, 3, doc, 0, doc_body(alloc, doc)?)?;
    }
    for doc in 1..=docs {
        add_row(rows, 4, doc, 1, Vec::from_slice(alloc, page)?)?;
    }
    add_row(rows, 11, 1, 0, batch_body(alloc)?)?;
    for doc in 1..=docs {
        add_row(rows, 12, doc, 1, words_body(alloc)?)?;
    }
    Ok(())
}

fn add_row(
    rows: &mut Vec<Row>,
    kind: u8,
    k1: u32,
    k2: u32,
    body: Vec<u8>,
) -> Result<(), AllocError> {
    let body = Bytes::from_vec(body);
    rows.push(Row { kind, k1, k2, body })?;
    Ok(())
}

fn staff_body(
    alloc: Global,
    role: u8,
    digest: &[u8; 32],
    name: &str,
) -> Result<Vec<u8>, AllocError> {
    let mut body = Vec::new(alloc);
    body.extend_from_slice(&[1, role])?;
    body.extend_from_slice(digest)?;
    add_text(&mut body, name)?;
    Ok(body)
}

fn field_body(alloc: Global) -> Result<Vec<u8>, AllocError> {
    let mut body = Vec::new(alloc);
    body.push(1)?;
    add_text(&mut body, "AUTHOR")?;
    Ok(body)
}

// One page, of batch 1, with a value of the field.
fn doc_body(alloc: Global, doc: u32) -> Result<Vec<u8>, AllocError> {
    let id = format!(in alloc; "AB-{doc:07}")?;
    let mut body = Vec::new(alloc);
    body.push(1)?;
    add_numbers(&mut body, &[doc, 1, 1])?;
    add_text(&mut body, id.as_str())?;
    add_numbers(&mut body, &[1])?;
    add_text(&mut body, "Ng")?;
    Ok(body)
}

// At 200 dots an inch.
fn page_of(alloc: Global, image: &Page) -> Result<Vec<u8>, OutOfMemory> {
    let strip = code_page(alloc, image)?;
    Ok(page_body(alloc, image, strip.as_slice())?)
}

fn page_body(alloc: Global, image: &Page, strip: &[u8]) -> Result<Vec<u8>, AllocError> {
    let mut body = Vec::new(alloc);
    body.push(1)?;
    add_numbers(&mut body, &[image.width(), image.height(), 200, 1, 200, 1])?;
    body.push(2)?;
    body.extend_from_slice(strip)?;
    Ok(body)
}

fn batch_body(alloc: Global) -> Result<Vec<u8>, AllocError> {
    let mut body = Vec::new(alloc);
    body.push(1)?;
    body.extend_from_slice(&[0; 32])?;
    add_numbers(&mut body, &[0, 0])?;
    add_text(&mut body, "batch")?;
    Ok(body)
}

fn words_body(alloc: Global) -> Result<Vec<u8>, AllocError> {
    let mut body = Vec::new(alloc);
    body.push(1)?;
    add_numbers(&mut body, &[0])?;
    Ok(body)
}

fn add_numbers(body: &mut Vec<u8>, numbers: &[u32]) -> Result<(), AllocError> {
    for number in numbers {
        body.extend_from_slice(&number.to_le_bytes())?;
    }
    Ok(())
}

fn add_text(body: &mut Vec<u8>, text: &str) -> Result<(), AllocError> {
    add_numbers(body, &[u32::try_from(text.len()).unwrap_or(u32::MAX)])?;
    body.extend_from_slice(text.as_bytes())
}
