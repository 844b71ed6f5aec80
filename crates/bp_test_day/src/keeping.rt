// The matter and its keeper.
//
//     begin BYTE               a new matter, whose lead has this key
//     load                     the keeper has the rows that were given, if there are some, and the
//                              tables are loaded anew
//     faults NUMBER..          the keeper's calls of these numbers, from 0 and from here on, fail
//     fault_count              how many calls of the keeper failed since then
//     mark / same              notes the rows of the tables / whether tables and keeper still have them
//     kept                     whether the keeper has the rows of the tables
//     count / row KIND K1 K2   how many rows the keeper has / the body of this one, or `none`
//     put KIND K1 K2 HEX / drop KIND K1 K2 / commit    a change that waits / all that wait are committed
use crate::day::Day;
use crate::told::{constant, of_matter, unread, yes_or_no};
use anyhow::Result;
use bp_core::{Bytes, ListOf, NumberList, Put, PutList, RowList, ascends};
use bp_keep::{Keeper, MemKeeper};
use bp_rules::{begin, load_tables};
use bp_test_words::Words;
use std::alloc::Global;

pub fn told(day: &mut Day, verb: &str, words: &mut Words) -> Option<Result<String>> {
    match verb {
        "begin" => Some(day.begin(words)),
        "load" => Some(day.load()),
        "faults" => Some(day.fail(words)),
        "fault_count" => Some(day.fault_count()),
        "mark" => Some(day.mark()),
        "same" => Some(day.same()),
        "kept" => Some(day.is_kept()),
        "count" => Some(day.count()),
        "row" => Some(day.row(words)),
        "put" => Some(day.put(words)),
        "drop" => Some(day.drop_row(words)),
        "commit" => Some(day.commit()),
        _ => None,
    }
}

// Numbers that all words that are left say.
pub fn numbers_of(alloc: Global, words: &mut Words) -> Result<NumberList> {
    let mut numbers = Vec::new(alloc);
    for _ in 0..words.count() {
        numbers.push(words.long_number())?;
    }
    Ok(NumberList::from_vec(numbers))
}

impl Day {
    fn begin(&mut self, words: &mut Words) -> Result<String> {
        let key = words.digest();
        if !words.is_read() {
            return unread(self.alloc);
        }
        self.tables = begin(self.alloc, key)?;
        let rows = self.tables.rows(self.alloc)?;
        self.keep(rows, NumberList::new(self.alloc))
    }

    // A keeper of these rows, whose calls of these numbers fail.
    fn keep(&mut self, rows: RowList, failing: NumberList) -> Result<String> {
        if !ascends(rows.as_slice()) {
            return constant(self.alloc, "the rows don't ascend");
        }
        self.keeper = MemKeeper::over(rows, failing);
        constant(self.alloc, "")
    }

    fn load(&mut self) -> Result<String> {
        if self.given.is_fresh() {
            let given = self.given.rows()?;
            let kept = self.keep(given, NumberList::new(self.alloc))?;
            if !kept.is_empty() {
                return Ok(kept);
            }
        }
        match load_tables(self.alloc, &mut self.keeper) {
            Ok(tables) => self.tables = tables,
            Err(refusal) => return of_matter(self.alloc, refusal),
        }
        constant(self.alloc, "loaded")
    }

    fn fail(&mut self, words: &mut Words) -> Result<String> {
        let failing = numbers_of(self.alloc, words)?;
        if !words.is_read() {
            return unread(self.alloc);
        }
        let rows = self.keeper.load(self.alloc)?;
        self.keep(rows, failing)
    }

    fn fault_count(&mut self) -> Result<String> {
        let count = self.keeper.faults();
        Ok(format!(in self.alloc; "{count}")?)
    }

    fn mark(&mut self) -> Result<String> {
        self.marked = self.tables.rows(self.alloc)?;
        constant(self.alloc, "")
    }

    fn same(&mut self) -> Result<String> {
        let rows = self.tables.rows(self.alloc)?;
        let kept = self.keeper.load(self.alloc)?;
        yes_or_no(self.alloc, rows == self.marked && kept == self.marked)
    }

    fn is_kept(&mut self) -> Result<String> {
        let rows = self.tables.rows(self.alloc)?;
        let kept = self.keeper.load(self.alloc)?;
        yes_or_no(self.alloc, rows == kept)
    }

    fn count(&mut self) -> Result<String> {
        let count = self.keeper.load(self.alloc)?.len();
        Ok(format!(in self.alloc; "{count}")?)
    }

    fn row(&mut self, words: &mut Words) -> Result<String> {
        let key = (words.byte(), words.number(), words.number());
        if !words.is_read() {
            return unread(self.alloc);
        }
        let rows = self.keeper.load(self.alloc)?;
        match rows
            .as_slice()
            .iter()
            .find(|row| (row.kind, row.k1, row.k2) == key)
        {
            Some(row) => Ok(hex::encode(self.alloc, row.body.as_slice())?),
            None => constant(self.alloc, "none"),
        }
    }

    fn put(&mut self, words: &mut Words) -> Result<String> {
        let kind = words.byte();
        let (k1, k2) = (words.number(), words.number());
        let body = Some(Bytes::from_vec(words.bytes()));
        self.add(words, Put { kind, k1, k2, body })
    }

    fn drop_row(&mut self, words: &mut Words) -> Result<String> {
        let kind = words.byte();
        let (k1, k2) = (words.number(), words.number());
        let body = None;
        self.add(words, Put { kind, k1, k2, body })
    }

    fn add(&mut self, words: &mut Words, put: Put) -> Result<String> {
        if !words.is_read() {
            return unread(self.alloc);
        }
        self.puts.push(put)?;
        constant(self.alloc, "")
    }

    fn commit(&mut self) -> Result<String> {
        let puts = std::mem::replace(&mut self.puts, Vec::new(self.alloc));
        let puts: PutList = ListOf::from_vec(puts);
        match self.keeper.commit(self.alloc, &puts) {
            Ok(()) => constant(self.alloc, "done"),
            Err(_) => constant(self.alloc, "keeper fault"),
        }
    }
}
