// Rows that are given, and what they come to as a matter: `valid`, or the rule.
//
//     rows                                 no row is given
//     given KIND K1 K2 HEX..               one more row
//     tables                               what all of them come to
//     spoiled KIND K1 K2 PLACE HEX         .. with these bytes at a place of the body of that row
//     cut KIND K1 K2                       .. with each shorter body of that row, and one longer by a 0
//     without KIND K1 K2 / with KIND K1 K2 HEX    .. without that row / with one more behind those
//                                                 of its key and below
//     turned                               .. the last first
use crate::told::{constant, of_tables, unread};
use anyhow::Result;
use bp_core::{Bytes, ListOf, Row, RowList};
use bp_matter::read_tables;
use bp_test_words::Words;
use std::alloc::{AllocError, Global};

/// Rows that are given.
#[derive(Drop)]
pub struct Given {
    alloc: Global,
    rows: RowList,
    // Whether some came since they were loaded.
    is_fresh: bool,
}

type Key = (u8, u32, u32);

fn key_of(words: &mut Words) -> Key {
    let kind = words.byte();
    let (k1, k2) = (words.number(), words.number());
    (kind, k1, k2)
}

impl Given {
    pub fn new(alloc: Global) -> Given {
        Given {
            alloc,
            rows: ListOf::new(alloc),
            is_fresh: false,
        }
    }

    pub fn told(&mut self, verb: &str, words: &mut Words) -> Option<Result<String>> {
        match verb {
            "rows" => Some(self.clear()),
            "given" => Some(self.give(words)),
            "tables" => Some(self.come_to()),
            "spoiled" => Some(self.spoiled(words)),
            "cut" => Some(self.cut(words)),
            "without" => Some(self.without(words)),
            "with" => Some(self.with(words)),
            "turned" => Some(self.turned()),
            _ => None,
        }
    }

    /// Whether some came since they were loaded.
    pub fn is_fresh(&self) -> bool {
        self.is_fresh
    }

    /// The rows, to be loaded.
    pub fn rows(&mut self) -> Result<RowList> {
        self.is_fresh = false;
        Ok(self.rows.clone()?)
    }

    fn clear(&mut self) -> Result<String> {
        self.rows = ListOf::new(self.alloc);
        self.is_fresh = false;
        constant(self.alloc, "")
    }

    fn give(&mut self, words: &mut Words) -> Result<String> {
        let (kind, k1, k2) = key_of(words);
        let mut bytes = Vec::new(self.alloc);
        words.add_bytes(&mut bytes);
        if !words.is_read() {
            return unread(self.alloc);
        }
        let body = Bytes::from_vec(bytes);
        self.add(Row { kind, k1, k2, body })?;
        constant(self.alloc, "")
    }

    fn add(&mut self, row: Row) -> Result<(), AllocError> {
        let rows = std::mem::replace(&mut self.rows, ListOf::new(self.alloc));
        let mut rows = rows.into_vec();
        let pushed = rows.push(row).is_ok();
        self.rows = ListOf::from_vec(rows);
        self.is_fresh = true;
        if pushed { Ok(()) } else { Err(AllocError) }
    }

    fn come_to(&self) -> Result<String> {
        of_tables(self.alloc, &read_tables(self.alloc, &self.rows))
    }

    fn these_come_to(&self, rows: Vec<Row>) -> Result<String> {
        of_tables(
            self.alloc,
            &read_tables(self.alloc, &ListOf::from_vec(rows)),
        )
    }

    // The rows, with this body in place of that row's.
    fn with_body(&self, key: Key, body: Vec<u8>) -> Result<String> {
        let mut rows = self.rows.clone()?.into_vec();
        put_body(&mut rows, key, Bytes::from_vec(body));
        self.these_come_to(rows)
    }

    fn body_of(&self, key: Key) -> Result<Vec<u8>> {
        for row in self.rows.as_slice() {
            if (row.kind, row.k1, row.k2) == key {
                return Ok(row.body.clone()?.into_vec());
            }
        }
        Ok(Vec::new(self.alloc))
    }

    fn spoiled(&self, words: &mut Words) -> Result<String> {
        let key = key_of(words);
        let place = words.number() as usize;
        let bytes = words.bytes();
        let mut body = self.body_of(key)?;
        if !words.is_read() || body.is_empty() {
            return unread(self.alloc);
        }
        for (at, byte) in bytes.iter().enumerate() {
            if let Some(old) = body.get_mut(place.saturating_add(at)) {
                *old = *byte;
            }
        }
        self.with_body(key, body)
    }

    fn cut(&self, words: &mut Words) -> Result<String> {
        let key = key_of(words);
        let body = self.body_of(key)?;
        if !words.is_read() || body.is_empty() {
            return unread(self.alloc);
        }
        let mut longer = body.as_slice().to_vec(self.alloc)?;
        longer.push(0)?;
        let told = self.with_body(key, longer)?;
        for len in 0..body.len() {
            let shorter = self.with_body(key, body[..len].to_vec(self.alloc)?)?;
            if shorter != told {
                return Ok(format!(in self.alloc; "{len} bytes: {shorter}")?);
            }
        }
        Ok(told)
    }

    fn without(&self, words: &mut Words) -> Result<String> {
        let key = key_of(words);
        if !words.is_read() {
            return unread(self.alloc);
        }
        let mut rows = self.rows.clone()?.into_vec();
        rows.retain(|row| (row.kind, row.k1, row.k2) != key);
        self.these_come_to(rows)
    }

    fn with(&self, words: &mut Words) -> Result<String> {
        let (kind, k1, k2) = key_of(words);
        let body = Bytes::from_vec(words.bytes());
        if !words.is_read() {
            return unread(self.alloc);
        }
        let mut rows = self.rows.clone()?.into_vec();
        let behind = rows
            .iter()
            .position(|row| (kind, k1, k2) < (row.kind, row.k1, row.k2))
            .unwrap_or(rows.len());
        rows.insert(behind, Row { kind, k1, k2, body })?;
        self.these_come_to(rows)
    }

    fn turned(&self) -> Result<String> {
        let mut rows = self.rows.clone()?.into_vec();
        rows.reverse();
        self.these_come_to(rows)
    }
}

fn put_body(rows: &mut [Row], key: Key, body: Bytes) {
    for row in rows {
        if (row.kind, row.k1, row.k2) == key {
            row.body = body;
            return;
        }
    }
}
