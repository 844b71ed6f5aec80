// A desk over a made matter, kept in memory: served at its port, or called without HTTP.
ghost use Rattle.std.specs.Prelude.{◌<◌};

use crate::files::page_of;
use crate::rows::{reviewer, rows_of};
use anyhow::{Result, bail};
use bp_book::{Book, MOST_CALLS};
use bp_core::{DocNo, NumberList, OutOfMemory, RowList, Text, Treatment, ascends};
use bp_desk::{MOST_SEATS, serve_matter};
use bp_keep::{Keeper, MemKeeper};
use bp_matter::Call;
use bp_outside::{DESK_LIMIT, Door, TcpDoor};
use std::alloc::Global;
use std::sync::Wait;
use std::thread::Threads;

/// Serves so many connections at the port of each desk, from 1; how many calls were made.
pub fn serve<T: Threads + Wait + Sync>(
    rt: &HostRuntime,
    threads: &T,
    operands: &[String],
) -> Result<u64> {
    let [file, docs, desks, connections] = operands else {
        bail!("FILE DOCS DESKS CONNECTIONS");
    };
    let (docs, desks) = (docs.parse::<u32>()?, desks.parse::<u32>()?);
    let connections = connections.parse::<u32>()?;
    let keeper = keeper_over(rt, file.as_str(), docs)?;
    serve_over(rt, threads, keeper, desks, connections)
}

fn serve_over<T: Threads + Wait + Sync, K: Keeper + Send + Drop>(
    rt: &HostRuntime,
    threads: &T,
    keeper: K,
    desks: u32,
    connections: u32,
) -> Result<u64> {
    let doors = doors_of(rt, desks)?;
    serve_at(threads, rt.alloc(), keeper, doors, desks, connections)
}

fn serve_at<T: Threads + Wait + Sync, K: Keeper + Send + Drop, D: Door + Send + Drop>(
    threads: &T,
    alloc: Global,
    keeper: K,
    doors: Vec<D>,
    desks: u32,
    connections: u32,
) -> Result<u64> {
    if desks == 0 || desks > MOST_SEATS || doors.len() != desks as usize {
        bail!("there are 1 to {MOST_SEATS} desks");
    }
    match serve_matter(threads, alloc, keeper, doors, desks, connections) {
        Ok(served) => Ok(served.closed.history.len() as u64),
        Err(_) => bail!("the rows aren't read"),
    }
}

// The doors of the first desks, of at most as many as there can be.
fn doors_of<'a>(rt: &'a HostRuntime, desks: u32) -> Result<Vec<TcpDoor<'a, HostRuntime>>> {
    let mut doors = Vec::new(rt.alloc());
    for desk in 1..=DESK_LIMIT {
        if u32::from(desk) <= desks {
            doors.push(TcpDoor::of(rt, desk))?;
        }
    }
    Ok(doors)
}

/// Makes so many calls, those that a client would ask for; how many were made.
pub fn calls(rt: &HostRuntime, operands: &[String]) -> Result<u64> {
    let [file, docs, count] = operands else {
        bail!("FILE DOCS COUNT");
    };
    let (docs, count) = (docs.parse::<u32>()?, count.parse::<u32>()?);
    let keeper = keeper_over(rt, file.as_str(), docs)?;
    count_calls(rt.alloc(), book_of(rt.alloc(), keeper)?, docs, count)
}

fn book_of<K: Keeper + Drop>(alloc: Global, keeper: K) -> Result<Book<K>> {
    match Book::start(alloc, keeper, MOST_CALLS) {
        Ok(book) => Ok(book),
        Err(_) => bail!("the rows aren't read"),
    }
}

fn keeper_over(rt: &HostRuntime, file: &str, docs: u32) -> Result<MemKeeper> {
    keeper_of(rt.alloc(), rows_over(rt, file, docs)?)
}

fn rows_over(rt: &HostRuntime, file: &str, docs: u32) -> Result<RowList> {
    let image = page_of(rt, file)?;
    Ok(rows_of(rt.alloc(), &image, docs)?)
}

fn keeper_of(alloc: Global, rows: RowList) -> Result<MemKeeper> {
    if !ascends(rows.as_slice()) {
        bail!("the rows don't ascend");
    }
    Ok(MemKeeper::over(rows, NumberList::new(alloc)))
}

fn count_of<K: Keeper + Drop>(book: Book<K>) -> u64 {
    book.end().history.len() as u64
}

// How many calls the book has after these.
fn count_calls<K: Keeper + Drop>(
    alloc: Global,
    book: Book<K>,
    docs: u32,
    count: u32,
) -> Result<u64> {
    let mut book = book;
    let made = call_times(alloc, &mut book, docs, count);
    let count = count_of(book);
    made?;
    Ok(count)
}

fn call_times<K: Keeper>(alloc: Global, book: &mut Book<K>, docs: u32, count: u32) -> Result<()> {
    let key = reviewer();
    for turn in 0..count {
        call_in_turn(alloc, book, &key, turn, docs.max(1))?;
    }
    Ok(())
}

fn call_in_turn<K: Keeper>(
    alloc: Global,
    book: &mut Book<K>,
    key: &[u8; 32],
    turn: u32,
    docs: u32,
) -> Result<()>
    requires { 0 < docs }
{
    let call = call_of(alloc, turn, docs)?;
    call_once(alloc, book, key, &call)
}

fn call_once<K: Keeper>(
    alloc: Global,
    book: &mut Book<K>,
    key: &[u8; 32],
    call: &Call,
) -> Result<()> {
    match book.call(alloc, 1, key, call) {
        Ok(_) => Ok(()),
        Err(refusal) => bail!("a call is refused: {refusal}"),
    }
}

// The call of a turn. Each time that all documents had their turn, they get another designation.
fn call_of(alloc: Global, turn: u32, docs: u32) -> Result<Call, OutOfMemory>
    requires { 0 < docs }
{
    let word = if turn / docs % 2 == 0 {
        "CONFIDENTIAL A"
    } else {
        "CONFIDENTIAL B"
    };
    Ok(Call::SetCall {
        doc: DocNo((turn % docs).wrapping_add(1)),
        responsive: true,
        treatment: Treatment::Redact,
        designation: Text::from_string(String::from_str(alloc, word)?),
    })
}
