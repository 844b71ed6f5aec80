// Presses into a folder in memory, and its files.
//
//     press ID WRITE..       how many files are written, or the refusal; the folder's calls of these
//                            numbers, from 0, fail
//     meet ID COUNT          the same into a folder in memory, where each job waits until so many have
//                            entered: how many jobs saw that, and how often each number of a job
//                            entered, a digit each, that of job 0 last
//     manifest               the digest that was told of the manifest
//     left                   how many files the folder has
//     path NUMBER            the path of that file, from 1
//     text PATH / hex PATH / length PATH      what stands in the file
//     shelve                 the files are laid aside
//     handed                 the files that were laid aside are files in memory too, each in place of
//                            the one of its path
//     alike                  whether the files are those that were laid aside
//     part                   how many files there are, and how many of them are whole, where they are a
//                            first part of those
//     found ID               whether each file is the one that is found by its path
//     find ID PATH           how many bytes the file has that is found by this path, or the rule
ghost use Rattle.std.specs.Prelude.{IfSome};
ghost use Rattle.bp_freeze.specs.Keeping.{KeepsProduction};

use crate::day::Day;
use crate::keeping::numbers_of;
use crate::told::{constant, of_refusal, unread, yes_or_no};
use anyhow::Result;
use bp_core::{ListOf, NumberList, Text};
use bp_matter::{Production, Tables};
use bp_outside::{FileRow, MemFolder};
use bp_press::{Covered, Gate, OpenGate, PressRefusal, Pressed, file_of, press};
use bp_test_words::{Words, escaped, hex_words};
use std::alloc::Global;
use std::sync::atomic::{AtomicU64, Ordering};
use std::thread::Threads;

/// The folder that was pressed into, and the one that was laid aside.
#[derive(Drop)]
pub struct Shelf {
    folder: MemFolder,
    aside: MemFolder,
    manifest: [u8; 32],
}

fn empty(alloc: Global, failing: NumberList) -> MemFolder {
    MemFolder::over(ListOf::new(alloc), failing)
}

impl Shelf {
    pub fn new(alloc: Global) -> Shelf {
        Shelf {
            folder: empty(alloc, NumberList::new(alloc)),
            aside: empty(alloc, NumberList::new(alloc)),
            manifest: [0; 32],
        }
    }

    /// What stands in the file of this path, of those that were pressed.
    pub fn file_at(&self, path: &Text) -> &[u8] {
        file_at(self.folder.files(), path)
    }

    /// This folder is the one that was pressed into.
    pub fn lay(&mut self, folder: MemFolder) {
        self.folder = folder;
    }
}

pub fn told<R: Threads + Sync>(
    rt: &R,
    day: &mut Day,
    verb: &str,
    words: &mut Words,
) -> Option<Result<String>> {
    match verb {
        "press" => Some(press_volume(rt, day, words)),
        "meet" => Some(press_met(rt, day, words)),
        "manifest" => Some(manifest(day)),
        "left" => Some(left(day)),
        "path" => Some(path(day, words)),
        "text" => Some(text(day, words)),
        "hex" => Some(hex_of(day, words)),
        "length" => Some(length(day, words)),
        "shelve" => Some(shelve(day)),
        "handed" => Some(hand_over(day)),
        "alike" => Some(alike(day)),
        "part" => Some(part(day)),
        "found" => Some(found(day, words)),
        "find" => Some(find(day, words)),
        _ => None,
    }
}

#[tactic(auto, using(crate::proofs::KeptLemmas::found_keeps))]
// The production of this id.
fn production_in<'a>(tables: &'a Tables, id: &Text) -> Option<&'a Production>
    ensures { IfSome result (λ production. KeepsProduction tables.now.matter production.now) }
{
    match tables.production(id) {
        Some(production) => Some(production),
        None => None,
    }
}

fn press_volume<R: Threads + Sync>(rt: &R, day: &mut Day, words: &mut Words) -> Result<String> {
    let id = words.text();
    let failing = numbers_of(day.alloc, words)?;
    if !words.is_read() {
        return unread(day.alloc);
    }
    day.pressed.folder = empty(day.alloc, failing);
    match production_in(&day.tables, &id) {
        Some(production) => {
            let told = press(
                rt,
                day.alloc,
                &day.tables,
                production,
                &mut day.pressed.folder,
                &OpenGate,
            );
            if let Ok(pressed) = &told {
                day.pressed.manifest = pressed.manifest;
            }
            of_press(day.alloc, told)
        }
        None => constant(day.alloc, "none"),
    }
}

// What each job looks for is looked for so often at most.
const TURNS: u64 = 500_000_000;

// A gate at which each job waits until so many have entered.
#[derive(Drop)]
struct Meeting {
    wanted: u64,
    entered: AtomicU64,
    // How often each number from 0 to 15 entered, four bits each.
    numbers: AtomicU64,
    seen: AtomicU64,
}

impl Meeting {
    fn of(wanted: u64) -> Meeting {
        Meeting {
            wanted,
            entered: AtomicU64::new(0),
            numbers: AtomicU64::new(0),
            seen: AtomicU64::new(0),
        }
    }

    // Waits until so many have entered.
    fn wait(&self) {
        for _ in 0..TURNS {
            if self.entered.load(Ordering::SeqCst) >= self.wanted {
                self.seen.fetch_add(1, Ordering::SeqCst);
                return;
            }
        }
    }
}

impl Gate for Meeting {
    ghost entered = { λ gate job. Unit {0} };

    fn enter(&self, job: usize) {
        if job < 16 {
            self.numbers.fetch_add(1 << (4 * job), Ordering::SeqCst);
        }
        self.entered.fetch_add(1, Ordering::SeqCst);
        self.wait();
    }
}

fn press_met<R: Threads + Sync>(rt: &R, day: &mut Day, words: &mut Words) -> Result<String> {
    let id = words.text();
    let meeting = Meeting::of(words.long_number());
    if !words.is_read() {
        return unread(day.alloc);
    }
    let mut folder = empty(day.alloc, NumberList::new(day.alloc));
    match production_in(&day.tables, &id) {
        Some(production) => {
            press(
                rt,
                day.alloc,
                &day.tables,
                production,
                &mut folder,
                &meeting,
            )?;
            let seen = meeting.seen.load(Ordering::SeqCst);
            let numbers = meeting.numbers.load(Ordering::SeqCst).to_be_bytes();
            let digits = hex::encode(day.alloc, numbers.as_slice())?;
            Ok(format!(in day.alloc; "{seen} {digits}")?)
        }
        None => constant(day.alloc, "none"),
    }
}

fn of_press(alloc: Global, told: Result<Pressed, PressRefusal>) -> Result<String> {
    match told {
        Ok(pressed) => {
            let files = pressed.files;
            Ok(format!(in alloc; "{files} files")?)
        }
        Err(PressRefusal::FolderFault) => constant(alloc, "folder fault"),
        Err(PressRefusal::OutOfMemory) => constant(alloc, "out of memory"),
    }
}

fn manifest(day: &Day) -> Result<String> {
    Ok(hex::encode(day.alloc, day.pressed.manifest.as_slice())?)
}

fn left(day: &Day) -> Result<String> {
    let count = day.pressed.folder.files().len();
    Ok(format!(in day.alloc; "{count}")?)
}

fn path(day: &Day, words: &mut Words) -> Result<String> {
    let number = words.number() as usize;
    let files = day.pressed.folder.files();
    if number >= 1 && number <= files.len() {
        escaped(day.alloc, files[number - 1].path.as_str())
    } else {
        constant(day.alloc, "none")
    }
}

fn file_at<'a>(files: &'a [FileRow], path: &Text) -> &'a [u8] {
    for file in files {
        if file.path == *path {
            return file.bytes.as_slice();
        }
    }
    &[]
}

fn text(day: &Day, words: &mut Words) -> Result<String> {
    let path = words.text();
    match str::from_utf8(file_at(day.pressed.folder.files(), &path)) {
        Ok(text) => escaped(day.alloc, text),
        Err(_) => constant(day.alloc, "no text"),
    }
}

fn hex_of(day: &Day, words: &mut Words) -> Result<String> {
    let path = words.text();
    hex_words(day.alloc, file_at(day.pressed.folder.files(), &path))
}

fn length(day: &Day, words: &mut Words) -> Result<String> {
    let path = words.text();
    let length = file_at(day.pressed.folder.files(), &path).len();
    Ok(format!(in day.alloc; "{length}")?)
}

fn shelve(day: &mut Day) -> Result<String> {
    let folder = empty(day.alloc, NumberList::new(day.alloc));
    day.pressed.aside = std::mem::replace(&mut day.pressed.folder, folder);
    constant(day.alloc, "")
}

fn hand_over(day: &mut Day) -> Result<String> {
    for file in day.pressed.aside.files() {
        day.files.replace(file.clone()?)?;
    }
    constant(day.alloc, "")
}

fn alike(day: &Day) -> Result<String> {
    let files = day.pressed.folder.files();
    let others = day.pressed.aside.files();
    let is_alike = files.len() == others.len() && whole_files(files, others) == files.len();
    yes_or_no(day.alloc, is_alike)
}

// How many of the first files are those at their places among the others.
fn whole_files(files: &[FileRow], others: &[FileRow]) -> usize {
    files
        .iter()
        .zip(others.iter())
        .take_while(|pair| pair.0 == pair.1)
        .count()
}

// A first part has whole files, and at most one more, which is the first part of a file.
fn part(day: &Day) -> Result<String> {
    let files = day.pressed.folder.files();
    let others = day.pressed.aside.files();
    let whole = whole_files(files, others);
    let count = files.len();
    let is_part = whole >= count || begins(files, others, whole) && count - whole == 1;
    if is_part {
        Ok(format!(in day.alloc; "{count} {whole}")?)
    } else {
        constant(day.alloc, "no first part")
    }
}

// Whether the file at a place is a first part of the other one there.
fn begins(files: &[FileRow], others: &[FileRow], place: usize) -> bool {
    match (files.get(place), others.get(place)) {
        (Some(file), Some(other)) => {
            file.path == other.path && other.bytes.as_slice().starts_with(file.bytes.as_slice())
        }
        _ => false,
    }
}

fn found(day: &Day, words: &mut Words) -> Result<String> {
    let id = words.text();
    let Some(production) = production_in(&day.tables, &id) else {
        return constant(day.alloc, "none");
    };
    let shown = Covered::of(&day.tables, production);
    for file in day.pressed.folder.files() {
        let bytes = file_of(day.alloc, &shown, &file.path)?;
        if bytes != file.bytes {
            return escaped(day.alloc, file.path.as_str());
        }
    }
    constant(day.alloc, "yes")
}

fn find(day: &Day, words: &mut Words) -> Result<String> {
    let id = words.text();
    let path = words.text();
    let Some(production) = production_in(&day.tables, &id) else {
        return constant(day.alloc, "none");
    };
    match file_of(day.alloc, &Covered::of(&day.tables, production), &path) {
        Ok(bytes) => {
            let length = bytes.len();
            Ok(format!(in day.alloc; "{length}")?)
        }
        Err(refusal) => of_refusal(day.alloc, refusal),
    }
}
