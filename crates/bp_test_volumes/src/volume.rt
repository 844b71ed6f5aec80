// The volume that lines speak of: files in memory.
//
//     hex PATH HEX..                these bytes at a path, in place of those that are there
//     text PATH TEXT..              the bytes of these texts
//     gone PATH                     nothing
//     keep / again                  what stands there now is kept; what was kept stands there again
//     check DAT OPT [MANIFEST]      what a check tells
//     fails N DAT OPT [MANIFEST]    the same where read N, counted from 0, fails
use anyhow::Result;
use bp_check::{Checked, ImportRefusal, check_volume};
use bp_core::{Bytes, ListOf, NumberList, Text};
use bp_outside::{FileList, FileRow, MemSource, paths_differ};
use bp_test_words::Words;
use std::alloc::Global;

/// Files, and those that were kept.
#[derive(Drop)]
pub struct Volume {
    files: Vec<FileRow>,
    kept: Vec<FileRow>,
}

impl Volume {
    pub fn new(alloc: Global) -> Volume {
        Volume {
            files: Vec::new(alloc),
            kept: Vec::new(alloc),
        }
    }

    /// Does what a line asks for.
    pub fn told(&mut self, alloc: Global, words: &mut Words) -> Result<String> {
        match words.word() {
            "hex" => {
                let path = words.text();
                let mut bytes = Vec::new(alloc);
                words.add_bytes(&mut bytes);
                self.put(path, bytes)?;
            }
            "text" => {
                let path = words.text();
                let mut bytes = Vec::new(alloc);
                words.add_texts(&mut bytes);
                self.put(path, bytes)?;
            }
            "gone" => {
                let path = words.text();
                self.remove(&path);
            }
            "keep" => self.kept = self.files.clone()?,
            "again" => self.files = self.kept.clone()?,
            "check" => return self.check(alloc, ListOf::new(alloc), words),
            "fails" => {
                let failing = vec![in alloc; words.long_number()]?;
                return self.check(alloc, ListOf::from_vec(failing), words);
            }
            _ => words.refuse(),
        }
        said(alloc, if words.is_read() { "" } else { "not read" })
    }

    fn put(&mut self, path: Text, bytes: Vec<u8>) -> Result<()> {
        self.remove(&path);
        let bytes = Bytes::from_vec(bytes);
        self.files.push(FileRow { path, bytes })?;
        Ok(())
    }

    fn remove(&mut self, path: &Text) {
        self.files.retain(|file| file.path != *path);
    }

    fn check(&self, alloc: Global, failing: NumberList, words: &mut Words) -> Result<String> {
        let dat = words.text();
        let opt = words.text();
        let manifest = if words.has_more() {
            Some(words.text())
        } else {
            None
        };
        let files = FileList::from_vec(self.files.clone()?);
        if !words.is_read() || !paths_differ(&files) {
            return said(alloc, "not read");
        }
        let mut source = MemSource::over(files, failing);
        let checked = check_volume(alloc, &mut source, &dat, &opt, manifest.as_ref());
        of_check(alloc, checked)
    }
}

fn said(alloc: Global, words: &str) -> Result<String> {
    Ok(String::from_str(alloc, words)?)
}

fn of_check(alloc: Global, told: std::result::Result<Checked, ImportRefusal>) -> Result<String> {
    match told {
        Ok(checked) => of_numbers(alloc, checked),
        Err(ImportRefusal::Rule(rule)) => Ok(format!(in alloc; "refused {rule}")?),
        Err(ImportRefusal::SourceFault) => said(alloc, "reading failed"),
        Err(ImportRefusal::OutOfMemory) => said(alloc, "out of memory"),
    }
}

fn of_numbers(alloc: Global, checked: Checked) -> Result<String> {
    let Checked {
        documents,
        images,
        files,
    } = checked;
    Ok(format!(in alloc; "documents {documents} images {images} files {files}")?)
}
