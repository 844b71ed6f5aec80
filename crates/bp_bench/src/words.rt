// Reading a file of words: `words ROWS TIMES`.
ghost use Rattle.std.specs.Prelude.{◌<◌, ◌^◌, length};

use crate::sums::with_text;
use anyhow::{Result, bail};
use bp_text::{WordRows, read_words};
use std::alloc::{AllocError, Global};

/// Reads a file of so many words so many times; a sum over all values of the first reading.
pub fn run(alloc: Global, operands: &[String]) -> Result<u64> {
    let [rows, times] = operands else {
        bail!("words ROWS TIMES");
    };
    let (rows, times) = (rows.parse::<u32>()?, times.parse::<u32>()?);
    let text = written(alloc, rows)?;
    read_times(alloc, text.as_bytes(), times)
}

fn read_times(alloc: Global, bytes: &[u8], times: u32) -> Result<u64> {
    if bytes.len() >= 1 << 32 {
        bail!("the file is too long");
    }
    let mut sum = 0u64;
    for turn in 0..times {
        sum = sum.wrapping_add(read_once(alloc, bytes, turn == 0)?);
    }
    Ok(sum)
}

// The sum over all values where it is asked for, else 0.
fn read_once(alloc: Global, bytes: &[u8], summed: bool) -> Result<u64>
    requires { length bytes.now < 2 ^ 32 }
{
    match read_words(alloc, bytes) {
        Ok(rows) => Ok(if summed { sum_of(&rows) } else { 0 }),
        Err(_) => bail!("the file isn't read"),
    }
}

// So many words, ten a line and fifty lines a page.
fn written(alloc: Global, rows: u32) -> Result<String, AllocError> {
    let mut text = String::new(alloc);
    for row in 0..rows {
        let (page, line, left) = (row / 500, row / 10 % 50, row % 10 * 200);
        write!(text, "AB-{page:07},{line},{left},")?;
        write!(text, "{},150,30,word{row}\r\n", line.wrapping_mul(60))?;
    }
    Ok(text)
}

fn sum_of(rows: &WordRows) -> u64 {
    let mut sum = 0;
    for row in rows.as_slice() {
        sum = with_text(sum, row.image.as_str().as_bytes());
        sum = with_text(sum, row.word.text.as_str().as_bytes());
        sum = with_number(sum, row.word.line);
        let rect = row.word.rect;
        for number in [rect.left, rect.top, rect.width, rect.height] {
            sum = with_number(sum, number);
        }
    }
    sum
}

fn with_number(sum: u64, number: u32) -> u64 {
    sum.wrapping_mul(31).wrapping_add(u64::from(number))
}
