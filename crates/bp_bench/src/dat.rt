// Reading a DAT file: `dat ROWS TIMES`.
ghost use Rattle.std.specs.Prelude.{◌<◌, ◌^◌, length};

use crate::sums::with_text;
use anyhow::{Result, bail};
use bp_core::Text;
use bp_load::{Dat, read_dat};
use std::alloc::{AllocError, Global};

const COLUMNS: u32 = 64;

/// Reads a file of so many rows of 64 columns so many times; a sum over all values of the first reading.
pub fn run(alloc: Global, operands: &[String]) -> Result<u64> {
    let [rows, times] = operands else {
        bail!("dat ROWS TIMES");
    };
    let (rows, times) = (rows.parse::<u32>()?, times.parse::<u32>()?);
    let bytes = written(alloc, rows)?;
    read_times(alloc, bytes.as_slice(), times)
}

fn read_times(alloc: Global, bytes: &[u8], times: u32) -> Result<u64> {
    if bytes.len() >= 1 << 32 {
        bail!("the file is too long");
    }
    let mut sum = 0u64;
    for turn in 0..times {
        sum = sum.wrapping_add(read_once(alloc, bytes, turn == 0)?);
    }
    Ok(sum)
}

// The sum over all values where it is asked for, else 0.
fn read_once(alloc: Global, bytes: &[u8], summed: bool) -> Result<u64>
    requires { length bytes.now < 2 ^ 32 }
{
    match read_dat(alloc, bytes) {
        Ok(dat) => Ok(if summed { sum_of(&dat) } else { 0 }),
        Err(_) => bail!("the file isn't read"),
    }
}

// A line of column names, and as many lines of values.
fn written(alloc: Global, rows: u32) -> Result<Vec<u8>, AllocError> {
    let mut bytes = Vec::new(alloc);
    add_line(&mut bytes, 0)?;
    for row in 0..rows {
        add_line(&mut bytes, row.wrapping_add(1))?;
    }
    Ok(bytes)
}

fn add_line(bytes: &mut Vec<u8>, row: u32) -> Result<(), AllocError> {
    for column in 0..COLUMNS {
        if column > 0 {
            bytes.push(0x14)?;
        }
        add_value(bytes, row, column)?;
    }
    bytes.extend_from_slice(b"\r\n")
}

// 4 to 20 letters between two quotes; one value in sixteen has a sign for a newline and an e with an
// accent.
fn add_value(bytes: &mut Vec<u8>, row: u32, column: u32) -> Result<(), AllocError> {
    let place = row.wrapping_mul(7).wrapping_add(column);
    bytes.extend_from_slice(b"\xC3\xBE")?;
    for k in 0..4 + place % 17 {
        bytes.push(b'a' + (place.wrapping_add(k) % 26) as u8)?;
    }
    if place % 16 == 0 {
        bytes.extend_from_slice(b"\xC2\xAE\xC3\xA9")?;
    }
    bytes.extend_from_slice(b"\xC3\xBE")
}

fn sum_of(dat: &Dat) -> u64 {
    let mut sum = sum_of_row(0, dat.columns().as_slice());
    for row in dat.rows().as_slice() {
        sum = sum_of_row(sum, row.as_slice());
    }
    sum
}

fn sum_of_row(sum: u64, row: &[Text]) -> u64 {
    let mut sum = sum;
    for value in row {
        sum = with_text(sum, value.as_str().as_bytes());
    }
    sum
}
