// Files in memory, and batches that are read of them.
//
//     files                                         there is no file
//     file PATH TEXT.. / file_hex PATH HEX..        a file, in place of the one of that path
//     file_more PATH TEXT..                         these texts behind what it has
//     image PATH FORM DOTS WIDTH HEIGHT RECTANGLE   the file, `plain` or `g4`, of a white page of so
//                                                   many dots to the inch with a black rectangle
//     absent PATH                                   there is no such file
//     batch NAME READ..      what is read: documents, pages, fields, and of each document its id,
//                            parent, values, and the words of each page; or the rule. The reads of
//                            these numbers, from 0, fail
//     digest NAME            the digest of what is read
//     import NAME READ..     what is read comes in: documents and pages
use crate::day::Day;
use crate::keeping::numbers_of;
use crate::told::{constant, of_batch, of_import, unread};
use anyhow::Result;
use bp_core::{Bytes, ListOf, NumberList, Text, TextList};
use bp_import::{ImportRefusal, read_batch};
use bp_matter::{Batch, BatchDoc, BatchPage};
use bp_outside::{FileRow, MemSource, paths_differ};
use bp_rows::{Page, Res, Unit};
use bp_rules::step_import;
use bp_test_words::{Words, escaped};
use bp_tiff::{Form, write_tiff};
use std::alloc::Global;

/// Files in memory.
#[derive(Drop)]
pub struct Files {
    alloc: Global,
    rows: Vec<FileRow>,
}

impl Files {
    pub fn new(alloc: Global) -> Files {
        Files {
            alloc,
            rows: Vec::new(alloc),
        }
    }

    pub fn told(&mut self, verb: &str, words: &mut Words) -> Option<Result<String>> {
        match verb {
            "files" => Some(self.clear()),
            "file" => Some(self.add_text(words)),
            "file_hex" => Some(self.add_hex(words)),
            "file_more" => Some(self.add_more(words)),
            "image" => Some(self.add_image(words)),
            "absent" => Some(self.remove(words)),
            _ => None,
        }
    }

    fn clear(&mut self) -> Result<String> {
        self.rows.clear();
        constant(self.alloc, "")
    }

    // Takes the file of this path away; its bytes, or none.
    fn taken(&mut self, path: &Text) -> Vec<u8> {
        match self.rows.iter().position(|row| row.path == *path) {
            Some(place) => self.rows.swap_remove(place).bytes.into_vec(),
            None => Vec::new(self.alloc),
        }
    }

    fn put(&mut self, words: &Words, path: Text, bytes: Vec<u8>) -> Result<String> {
        if !words.is_read() {
            return unread(self.alloc);
        }
        let bytes = Bytes::from_vec(bytes);
        self.rows.push(FileRow { path, bytes })?;
        constant(self.alloc, "")
    }

    fn add_text(&mut self, words: &mut Words) -> Result<String> {
        let path = words.text();
        let mut bytes = self.taken(&path);
        bytes.clear();
        words.add_texts(&mut bytes);
        self.put(words, path, bytes)
    }

    fn add_more(&mut self, words: &mut Words) -> Result<String> {
        let path = words.text();
        let mut bytes = self.taken(&path);
        words.add_texts(&mut bytes);
        self.put(words, path, bytes)
    }

    fn add_hex(&mut self, words: &mut Words) -> Result<String> {
        let path = words.text();
        let mut bytes = self.taken(&path);
        bytes.clear();
        words.add_bytes(&mut bytes);
        self.put(words, path, bytes)
    }

    fn add_image(&mut self, words: &mut Words) -> Result<String> {
        let path = words.text();
        let _old = self.taken(&path);
        let bytes = image(self.alloc, words)?;
        self.put(words, path, bytes)
    }

    /// A file, in place of the one of its path.
    pub fn replace(&mut self, file: FileRow) -> Result<()> {
        let _old = self.taken(&file.path);
        self.rows.push(file)?;
        Ok(())
    }

    fn remove(&mut self, words: &mut Words) -> Result<String> {
        let path = words.text();
        let _old = self.taken(&path);
        constant(self.alloc, "")
    }

    /// A source of these files, whose reads of these numbers fail.
    pub fn source(&self, failing: NumberList) -> Result<Option<MemSource>> {
        let mut rows = Vec::new(self.alloc);
        for row in &self.rows {
            rows.push(row.clone()?)?;
        }
        let files = ListOf::from_vec(rows);
        if paths_differ(&files) {
            Ok(Some(MemSource::over(files, failing)))
        } else {
            Ok(None)
        }
    }

    /// The batch of this name.
    pub fn batch(&self, name: &Text, failing: NumberList) -> Result<Result<Batch, ImportRefusal>> {
        match self.source(failing)? {
            Some(mut source) => Ok(read_batch(self.alloc, &mut source, name)),
            None => Ok(Err(ImportRefusal::SourceFault)),
        }
    }
}

// The file of a white page with a black rectangle, where it lies inside.
fn image(alloc: Global, words: &mut Words) -> Result<Vec<u8>> {
    let form = match words.word() {
        "plain" => Form::Plain,
        _ => Form::G4,
    };
    let num = words.number();
    let (width, height) = (words.number(), words.number());
    let area = words.rect();
    let res = Res { num, den: 1 };
    let mut page = Page::white(alloc, width, height, res, res, Unit::Inch)?;
    if area.inside(page.width(), page.height()) {
        page.blacken_box(&area);
    }
    Ok(write_tiff(alloc, form, &page)?.into_vec())
}

pub fn told(day: &mut Day, verb: &str, words: &mut Words) -> Option<Result<String>> {
    match verb {
        "batch" => Some(batch(day, words)),
        "digest" => Some(digest(day, words)),
        "import" => Some(import(day, words)),
        _ => day.files.told(verb, words),
    }
}

fn import(day: &mut Day, words: &mut Words) -> Result<String> {
    let name = words.text();
    let failing = numbers_of(day.alloc, words)?;
    if !words.is_read() {
        return unread(day.alloc);
    }
    match &day.files.batch(&name, failing)? {
        Ok(batch) => {
            let told = step_import(day.alloc, &mut day.tables, &mut day.keeper, batch);
            of_import(day.alloc, told)
        }
        Err(refusal) => of_batch(day.alloc, *refusal),
    }
}

fn batch(day: &Day, words: &mut Words) -> Result<String> {
    let name = words.text();
    let failing = numbers_of(day.alloc, words)?;
    if !words.is_read() {
        return unread(day.alloc);
    }
    match &day.files.batch(&name, failing)? {
        Ok(batch) => batch_text(day.alloc, batch),
        Err(refusal) => of_batch(day.alloc, *refusal),
    }
}

fn digest(day: &Day, words: &mut Words) -> Result<String> {
    let name = words.text();
    match &day.files.batch(&name, NumberList::new(day.alloc))? {
        Ok(batch) => Ok(hex::encode(day.alloc, batch.digest.as_slice())?),
        Err(refusal) => of_batch(day.alloc, *refusal),
    }
}

fn batch_text(alloc: Global, batch: &Batch) -> Result<String> {
    let count = batch.docs.len();
    let mut text = format!(in alloc; "{count}")?;
    add_texts(alloc, &mut text, &batch.fields)?;
    for doc in batch.docs.as_slice() {
        text.push_str(doc_text(alloc, doc)?.as_str())?;
    }
    Ok(text)
}

// Behind a space each text in brackets, where there are some.
fn add_texts(alloc: Global, text: &mut String, texts: &TextList) -> Result<()> {
    if !texts.is_empty() {
        text.push(' ')?;
    }
    for part in texts.as_slice() {
        let part = escaped(alloc, part.as_str())?;
        write!(text, "[{part}]")?;
    }
    Ok(())
}

fn doc_text(alloc: Global, doc: &BatchDoc) -> Result<String> {
    let id = escaped(alloc, doc.id.as_str())?;
    let parent = doc.parent;
    let mut text = format!(in alloc; " | {id} {parent}")?;
    add_texts(alloc, &mut text, &doc.values)?;
    for page in doc.pages.as_slice() {
        text.push_str(page_text(alloc, page)?.as_str())?;
    }
    Ok(text)
}

// Width, height and words of a page.
fn page_text(alloc: Global, page: &BatchPage) -> Result<String> {
    let (width, height) = (page.page.width(), page.page.height());
    let mut text = format!(in alloc; " ({width} {height}")?;
    for word in page.words.as_slice() {
        let word = escaped(alloc, word.text.as_str())?;
        write!(text, " {word}")?;
    }
    text.push(')')?;
    Ok(text)
}
