// The file that lines speak of, and page files (TIFF 6.0).
//
//     file hex HEX..          these bytes
//     file text TEXT..        the bytes of these texts
//     file more HEX..         these bytes behind those that are there
//     file more_text TEXT..   the bytes of these texts behind those that are there
//     file open PATH          the bytes of a file of the data
//     file tiff CHANGES       the page of the file, by both readers
//     file first COUNT        the page of so many first bytes, by both readers
//
// CHANGES are pairs of a place and the byte that stands there in place of the file's, and perhaps `+` and
// bytes that stand behind it. The file itself stays.
use crate::pages::shown;
use crate::told::{constant, of_refusal, unread};
use anyhow::Result;
use bp_core::Refusal;
use bp_rows::Page;
use bp_test_words::Words;
use bp_tiff::{judge_tiff, read_tiff, take_tiff};
use std::alloc::{AllocError, Global};
use std::fs;
use std::rt::Files;

/// The bytes of a file.
#[derive(Drop)]
pub struct File {
    bytes: Vec<u8>,
}

impl File {
    pub fn new(alloc: Global) -> File {
        File {
            bytes: Vec::new(alloc),
        }
    }

    pub fn as_slice(&self) -> &[u8] {
        self.bytes.as_slice()
    }

    pub fn told<R: Files + AllocGlobal>(
        &mut self,
        rt: &R,
        alloc: Global,
        words: &mut Words,
    ) -> Result<String> {
        match words.word() {
            "open" => self.bytes = fs::read(rt, words.word())?,
            "hex" => {
                self.bytes.clear();
                words.add_bytes(&mut self.bytes);
            }
            "text" => {
                self.bytes.clear();
                words.add_texts(&mut self.bytes);
            }
            "more" => words.add_bytes(&mut self.bytes),
            "more_text" => words.add_texts(&mut self.bytes),
            "tiff" => return self.tiff(alloc, words),
            "first" => return self.first(alloc, words),
            _ => words.refuse(),
        }
        constant(alloc, if words.is_read() { "" } else { "not read" })
    }

    /// The bytes with the changes that the words say.
    pub fn changed(&self, alloc: Global, words: &mut Words) -> Result<Vec<u8>, AllocError> {
        let mut bytes = self.bytes.as_slice().to_vec(alloc)?;
        for _ in 0..words.count() {
            match words.word() {
                "" => break,
                "+" => words.add_bytes(&mut bytes),
                place => change(&mut bytes, place, words),
            }
            if !words.has_more() {
                break;
            }
        }
        Ok(bytes)
    }

    fn tiff(&self, alloc: Global, words: &mut Words) -> Result<String> {
        let bytes = self.changed(alloc, words)?;
        if words.is_read() {
            read(alloc, bytes)
        } else {
            unread(alloc)
        }
    }

    fn first(&self, alloc: Global, words: &mut Words) -> Result<String> {
        let count = words.number() as usize;
        if words.is_read() && count <= self.bytes.len() {
            read(alloc, self.bytes[..count].to_vec(alloc)?)
        } else {
            unread(alloc)
        }
    }
}

// Puts a byte, which the next word says, in the place that a word says.
fn change(bytes: &mut [u8], place: &str, words: &mut Words) {
    let piece = words.bytes();
    match (place.parse::<usize>(), piece.as_slice()) {
        (Ok(place), [byte]) if place < bytes.len() => bytes[place] = *byte,
        _ => words.refuse(),
    }
}

// The page of a file, by both readers, of which the judge says the same.
fn read(alloc: Global, file: Vec<u8>) -> Result<String> {
    let judged = judge_tiff(alloc, &file);
    let lent = page_told(alloc, read_tiff(alloc, &file))?;
    let taken = page_told(alloc, take_tiff(alloc, file))?;
    if lent != taken {
        return constant(alloc, "the two readers differ");
    }
    if !is_judged_so(alloc, judged, lent.as_str())? {
        return constant(alloc, "the judge differs from the readers");
    }
    Ok(lent)
}

// Whether the judge passed what was told as a page, or gave the rule that was told.
fn is_judged_so(alloc: Global, judged: Result<(), Refusal>, told: &str) -> Result<bool> {
    match judged {
        Ok(()) => Ok(!told.starts_with("refused")),
        Err(refusal) => Ok(of_refusal(alloc, refusal)?.as_str() == told),
    }
}

fn page_told(alloc: Global, answer: Result<Page, Refusal>) -> Result<String> {
    match answer {
        Ok(page) => shown(alloc, &page),
        Err(refusal) => of_refusal(alloc, refusal),
    }
}
