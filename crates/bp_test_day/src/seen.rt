// What is seen of documents, pages, words and productions, as a line says it.
use anyhow::Result;
use bp_core::{Text, Treatment};
use bp_matter::{BoxRow, DocView, Entry, HeldRow, Item, KeptPage, Production, State};
use bp_text::WordList;
use std::alloc::Global;

/// Document, parent, pages, state, whether responsive, treatment, designation, and then boxes, held
/// fields and the entry.
pub fn document(alloc: Global, view: &DocView) -> Result<String> {
    let (doc, parent, pages) = (view.doc.0, view.parent.0, view.pages);
    let mut text = format!(in alloc; "doc {doc} {parent} {pages}")?;
    add_state(&mut text, view.state)?;
    text.push_str(if view.responsive { " yes" } else { " no" })?;
    add_treatment(&mut text, view.treatment)?;
    add_text(&mut text, &view.designation)?;
    add_marks(
        alloc,
        &mut text,
        view.boxes.as_slice(),
        view.held.as_slice(),
    )?;
    add_entry(&mut text, &view.entry)?;
    Ok(text)
}

pub fn add_state(text: &mut String, state: State) -> Result<()> {
    match state {
        State::Uncalled => text.push_str(" uncalled")?,
        State::First(editor) => {
            let editor = editor.0;
            write!(text, " first {editor}")?;
        }
        State::Confirmed(editor, confirmer) => {
            let (editor, confirmer) = (editor.0, confirmer.0);
            write!(text, " confirmed {editor} {confirmer}")?;
        }
    }
    Ok(())
}

pub fn add_treatment(text: &mut String, treatment: Treatment) -> Result<()> {
    match treatment {
        Treatment::Produce => text.push_str(" produce")?,
        Treatment::Redact => text.push_str(" redact")?,
        Treatment::Withhold(basis) => {
            text.push_str(" ")?;
            text.push_str(basis.code())?;
        }
    }
    Ok(())
}

// A text in its quotation marks.
pub fn add_text(text: &mut String, more: &Text) -> Result<()> {
    text.push_str(" \"")?;
    text.push_str(more.as_str())?;
    text.push_str("\"")?;
    Ok(())
}

// Each box, and each held field, behind a bar.
pub fn add_marks(
    alloc: Global,
    text: &mut String,
    boxes: &[BoxRow],
    held: &[HeldRow],
) -> Result<()> {
    for row in boxes {
        text.push_str(box_text(alloc, row)?.as_str())?;
    }
    for row in held {
        let (field, code) = (row.field, row.basis.code());
        text.push_str(format!(in alloc; " | field {field} {code}")?.as_str())?;
    }
    Ok(())
}

fn box_text(alloc: Global, row: &BoxRow) -> Result<String> {
    let (num, page, code) = (row.num, row.page.0, row.basis.code());
    let (left, top, width, height) = (row.rect.left, row.rect.top, row.rect.width, row.rect.height);
    let place = format!(in alloc; " | box {num} {page}")?;
    let rect = format!(in alloc; "{left} {top} {width} {height}")?;
    Ok(format!(in alloc; "{place} {rect} {code}")?)
}

pub fn add_entry(text: &mut String, entry: &Option<Entry>) -> Result<()> {
    if let Some(entry) = entry {
        text.push_str(" | entry")?;
        add_text(text, &entry.date)?;
        add_text(text, &entry.author)?;
        add_text(text, &entry.recipients)?;
        add_text(text, &entry.description)?;
    }
    Ok(())
}

/// Width and height of a page, and the row and column of its first black pixel.
pub fn page(alloc: Global, kept: &KeptPage) -> Result<String> {
    let image = kept.page(alloc)?;
    let (width, height) = (image.width(), image.height());
    for row in 0..height {
        for column in 0..width {
            if image.get(row, column) {
                return Ok(format!(in alloc; "page {width} {height} {row} {column}")?);
            }
        }
    }
    Ok(format!(in alloc; "page {width} {height} white")?)
}

/// The texts of the words.
pub fn words(alloc: Global, list: &WordList) -> Result<String> {
    let mut text = String::from_str(alloc, "words")?;
    for word in list.as_slice() {
        text.push_str(" ")?;
        text.push_str(word.text.as_str())?;
    }
    Ok(text)
}

/// The items: document, treatment, and first and last number of each.
pub fn production(alloc: Global, produced: &Production) -> Result<String> {
    let mut text = String::from_str(alloc, "produced")?;
    for item in produced.items.as_slice() {
        add_item(alloc, &mut text, item)?;
    }
    Ok(text)
}

fn add_item(alloc: Global, text: &mut String, item: &Item) -> Result<()> {
    let (doc, first, last) = (item.doc.0, item.span.first, item.span.last);
    text.push_str(format!(in alloc; " {doc}:{first}-{last}")?.as_str())?;
    Ok(())
}
