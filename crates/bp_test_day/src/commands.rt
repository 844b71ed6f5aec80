// Command lines, carried out by the top call over the files, the keeper, an empty folder and one
// door.
//
//     tivrenan WORD..     the status, and what is printed; the words are texts. The folder is then the
//                         one that was pressed into. The tables stay until they are loaded anew
//     source_fails NUMBER.. / folder_fails NUMBER.. / out_fails NUMBER.. / door_fails NUMBER..
//                         the calls of these numbers, from 0, fail in the next command line
//     peer TEXT..         one more peer at the door of the next command line: it sends these texts
//     replied NUMBER      what was written in that exchange of the last command line, from 1
//     exchanges / history how many exchanges there were / how many calls, or `none`
use crate::day::Day;
use crate::keeping::numbers_of;
use crate::told::{constant, unread};
use anyhow::Result;
use bp_book::History;
use bp_cli::run::{Ended, run};
use bp_core::{Bytes, ListOf, NumberList, RowList};
use bp_keep::MemKeeper;
use bp_outside::{MemDoor, MemFolder, MemOut, MemSource};
use bp_test_words::{Words, escaped};
use std::alloc::Global;
use std::sync::Wait;
use std::thread::Threads;

/// What the next command line meets outside, and the door of the last one.
#[derive(Drop)]
pub struct Outside {
    source: NumberList,
    folder: NumberList,
    out: NumberList,
    door: NumberList,
    peers: Vec<Bytes>,
    served: MemDoor,
    calls: Option<u64>,
}

impl Outside {
    pub fn new(alloc: Global) -> Outside {
        Outside {
            source: NumberList::new(alloc),
            folder: NumberList::new(alloc),
            out: NumberList::new(alloc),
            door: NumberList::new(alloc),
            peers: Vec::new(alloc),
            served: MemDoor::over(ListOf::new(alloc), NumberList::new(alloc)),
            calls: None,
        }
    }

    fn place(&mut self, verb: &str) -> Option<&mut NumberList> {
        match verb {
            "source_fails" => Some(&mut self.source),
            "folder_fails" => Some(&mut self.folder),
            "out_fails" => Some(&mut self.out),
            "door_fails" => Some(&mut self.door),
            _ => None,
        }
    }

    fn add_peer(&mut self, alloc: Global, words: &mut Words) -> Result<String> {
        let mut bytes = Vec::new(alloc);
        words.add_texts(&mut bytes);
        if !words.is_read() {
            return unread(alloc);
        }
        self.peers.push(Bytes::from_vec(bytes))?;
        constant(alloc, "")
    }

    fn replied(&self, alloc: Global, words: &mut Words) -> Result<String> {
        let number = words.number() as usize;
        let exchanges = self.served.exchanges();
        if number < 1 || number > exchanges.len() {
            return constant(alloc, "none");
        }
        let text = str::from_utf8(exchanges[number - 1].written.as_slice());
        escaped(alloc, text.unwrap_or("no text"))
    }

    fn exchanges(&self, alloc: Global) -> Result<String> {
        let count = self.served.exchanges().len();
        Ok(format!(in alloc; "{count}")?)
    }

    fn history(&self, alloc: Global) -> Result<String> {
        match self.calls {
            Some(count) => Ok(format!(in alloc; "{count}")?),
            None => constant(alloc, "none"),
        }
    }
}

pub fn told(day: &mut Day, verb: &str, words: &mut Words) -> Option<Result<String>> {
    let alloc = day.alloc;
    match verb {
        "peer" => Some(day.outside.add_peer(alloc, words)),
        "replied" => Some(day.outside.replied(alloc, words)),
        "exchanges" => Some(day.outside.exchanges(alloc)),
        "history" => Some(day.outside.history(alloc)),
        _ => fails(day, verb, words),
    }
}

fn fails(day: &mut Day, verb: &str, words: &mut Words) -> Option<Result<String>> {
    let alloc = day.alloc;
    match day.outside.place(verb) {
        Some(place) => Some(note(alloc, place, words)),
        None => None,
    }
}

fn note(alloc: Global, place: &mut NumberList, words: &mut Words) -> Result<String> {
    *place = numbers_of(alloc, words)?;
    if words.is_read() {
        constant(alloc, "")
    } else {
        unread(alloc)
    }
}

/// Carries out the command line of these words, texts with a space between them.
pub fn carry_out<R: Threads + Wait + Sync>(rt: &R, day: &mut Day, line: &str) -> Result<String> {
    let alloc = day.alloc;
    let words = words_in(alloc, line)?;
    let outside = std::mem::replace(&mut day.outside, Outside::new(alloc));
    let Some(source) = day.files.source(outside.source)? else {
        return constant(alloc, "two files at one path");
    };
    let mut stage = Stage {
        source,
        folder: MemFolder::over(ListOf::new(alloc), outside.folder),
        out: MemOut::over(Bytes::from_vec(Vec::new(alloc)), outside.out),
    };
    let mut doors = Vec::new(alloc);
    doors.push(MemDoor::over(ListOf::from_vec(outside.peers), outside.door))?;
    let status = stage.run(rt, alloc, &words, doors, day);
    let told = stage.told(alloc, status)?;
    day.pressed.lay(stage.folder);
    Ok(told)
}

fn words_in(alloc: Global, line: &str) -> Result<Vec<String>> {
    let mut texts = Vec::new(alloc);
    if line.is_empty() {
        return Ok(texts);
    }
    let words: Vec<&str> = line.split(' ').collect(alloc)?;
    let mut words = Words::over(alloc, words.as_slice());
    for _ in 0..words.count() {
        texts.push(words.text().into_string())?;
    }
    Ok(texts)
}

// Where a command line is carried out.
#[derive(Drop)]
struct Stage {
    source: MemSource,
    folder: MemFolder,
    out: MemOut,
}

impl Stage {
    // The status. The day's keeper and its last door are those that were handed back.
    fn run<R: Threads + Wait + Sync>(
        &mut self,
        rt: &R,
        alloc: Global,
        words: &[String],
        doors: Vec<MemDoor>,
        day: &mut Day,
    ) -> u8 {
        let none = MemKeeper::over(RowList::new(alloc), NumberList::new(alloc));
        let handed = std::mem::replace(&mut day.keeper, none);
        let ended = run(
            rt,
            alloc,
            words,
            &mut self.source,
            handed,
            &mut self.folder,
            &mut self.out,
            doors,
        );
        take_back(ended, day)
    }

    // The status, and what was printed.
    fn told(&self, alloc: Global, status: u8) -> Result<String> {
        let printed = str::from_utf8(self.out.written()).unwrap_or("no text");
        let printed = escaped(alloc, printed)?;
        Ok(format!(in alloc; "{status} {printed}")?)
    }
}

fn take_back(ended: Ended<MemKeeper, MemDoor>, day: &mut Day) -> u8 {
    let Ended {
        status,
        keeper,
        doors,
        history,
    } = ended;
    take_keeper(day, keeper);
    take_door(day, doors);
    day.outside.calls = count_of(&history);
    status
}

fn take_keeper(day: &mut Day, keeper: Option<MemKeeper>) {
    if let Some(keeper) = keeper {
        day.keeper = keeper;
    }
}

fn take_door(day: &mut Day, mut doors: Vec<MemDoor>) {
    if let Some(door) = doors.pop() {
        day.outside.served = door;
    }
}

fn count_of(history: &Option<History>) -> Option<u64> {
    match history {
        Some(history) => Some(history.len() as u64),
        None => None,
    }
}
