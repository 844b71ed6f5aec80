// Keepers in memory of the matters that desks serve.
ghost use Rattle.std.specs.Prelude.{◌≡◌};

use crate::calls::{box_of, call_redact, put_box};
use bp_core::{Bytes, DocNo, NumberList, Role, Row, RowList, Text, ascends};
use bp_keep::MemKeeper;
use bp_matter::{Call, Tables};
use bp_rules::{begin, load_tables, step};
use sha2::{Digest, Sha256};
use std::alloc::{AllocError, Global};
use std::test::Fail;

/// What the lead of the matter presents.
pub const KEY: &[u8] = b"abc";

// The SHA-256 of the key of who confirms.
const SECOND: [u8; 32] = [2; 32];

// Document 1, its page of 8 by 1 pixels, its batch, and the words of the page: kinds, keys and bodies.
const DOCUMENT: [(u8, u32, u32, &[u8]); 4] = [
    (
        3,
        1,
        0,
        b"\x01\x01\0\0\0\x01\0\0\0\x01\0\0\0\x01\0\0\0D\0\0\0\0",
    ),
    (
        4,
        1,
        1,
        b"\x01\x08\0\0\0\x01\0\0\0\xC8\0\0\0\x01\0\0\0\xC8\0\0\0\x01\0\0\0\x02\x80\x08\0\x80",
    ),
    (
        11,
        1,
        0,
        b"\x01\0\0\0\0\0\0\0\0\0\0\0\0\0\0\0\0\0\0\0\0\0\0\0\0\0\0\0\0\0\0\0\0\0\0\0\0\0\0\0\0\x01\0\0\0B",
    ),
    (12, 1, 1, b"\x01\0\0\0\0"),
];

/// A new matter.
pub fn begun(alloc: Global) -> Result<MemKeeper, Fail> {
    over(alloc, begun_rows(alloc)?)
}

fn begun_rows(alloc: Global) -> Result<RowList, Fail> {
    let tables = begin(alloc, Sha256::digest(KEY))?;
    Ok(tables.rows(alloc)?)
}

// A keeper of these rows.
fn over(alloc: Global, rows: RowList) -> Result<MemKeeper, Fail> {
    if !ascends(rows.as_slice()) {
        return Err(Fail::from("rows out of order"));
    }
    Ok(MemKeeper::over(rows, NumberList::from_vec(Vec::new(alloc))))
}

/// A matter with document 1, which the lead called Redact.
pub fn called(alloc: Global) -> Result<MemKeeper, Fail> {
    let mut rows = begun_rows(alloc)?.into_vec();
    add_document(alloc, &mut rows)?;
    let mut keeper = over(alloc, RowList::from_vec(rows))?;
    make(alloc, &mut keeper, &Sha256::digest(KEY), call_redact(alloc))?;
    Ok(keeper)
}

fn add_document(alloc: Global, rows: &mut Vec<Row>) -> Result<(), AllocError> {
    for (kind, k1, k2, bytes) in DOCUMENT {
        let body = Bytes::from_vec(bytes.to_vec(alloc)?);
        rows.push(Row { kind, k1, k2, body })?;
    }
    Ok(())
}

/// The same, with one box, confirmed.
pub fn confirmed(alloc: Global) -> Result<MemKeeper, Fail> {
    let mut keeper = called(alloc)?;
    confirm_in(alloc, &mut keeper)?;
    Ok(keeper)
}

fn confirm_in(alloc: Global, keeper: &mut MemKeeper) -> Result<(), Fail> {
    let lead = Sha256::digest(KEY);
    make(alloc, keeper, &lead, second(alloc)?)?;
    make(alloc, keeper, &lead, put_box(box_of(1)))?;
    make(alloc, keeper, &SECOND, Call::Confirm { doc: DocNo(1) })
}

fn second(alloc: Global) -> Result<Call, AllocError> {
    Ok(Call::AddStaff {
        name: Text::from_string(String::from_str(alloc, "Ito")?),
        role: Role::Second,
        digest: SECOND,
    })
}

// The call, the tables and the reply are let go in one place each.
fn make(alloc: Global, keeper: &mut MemKeeper, key: &[u8; 32], call: Call) -> Result<(), Fail> {
    make_over(alloc, keeper, key, &call)
}

fn make_over(
    alloc: Global,
    keeper: &mut MemKeeper,
    key: &[u8; 32],
    call: &Call,
) -> Result<(), Fail> {
    let mut tables = load_tables(alloc, keeper)?;
    step_in(alloc, &mut tables, keeper, key, call)
}

fn step_in(
    alloc: Global,
    tables: &mut Tables,
    keeper: &mut MemKeeper,
    key: &[u8; 32],
    call: &Call,
) -> Result<(), Fail> {
    let _reply = step(alloc, tables, keeper, key, call)?;
    Ok(())
}
