// Reading an OPT file: `opt LINES TIMES`.
ghost use Rattle.std.specs.Prelude.{◌<◌, ◌^◌, length};

use crate::sums::with_text;
use anyhow::{Result, bail};
use bp_load::{OptLine, OptList, read_opt};
use std::alloc::{AllocError, Global};

/// Reads a file of so many lines so many times; a sum over all values of the first reading.
pub fn run(alloc: Global, operands: &[String]) -> Result<u64> {
    let [lines, times] = operands else {
        bail!("opt LINES TIMES");
    };
    let (lines, times) = (lines.parse::<u32>()?, times.parse::<u32>()?);
    let text = written(alloc, lines)?;
    read_times(alloc, text.as_bytes(), times)
}

fn read_times(alloc: Global, bytes: &[u8], times: u32) -> Result<u64> {
    if bytes.len() >= 1 << 32 {
        bail!("the file is too long");
    }
    let mut sum = 0u64;
    for turn in 0..times {
        sum = sum.wrapping_add(read_once(alloc, bytes, turn == 0)?);
    }
    Ok(sum)
}

// The sum over all values where it is asked for, else 0.
fn read_once(alloc: Global, bytes: &[u8], summed: bool) -> Result<u64>
    requires { length bytes.now < 2 ^ 32 }
{
    match read_opt(alloc, bytes) {
        Ok(lines) => Ok(if summed { sum_of(&lines) } else { 0 }),
        Err(_) => bail!("the file isn't read"),
    }
}

// So many lines; a document begins at every fourth, and a box at every thousandth.
fn written(alloc: Global, lines: u32) -> Result<String, AllocError> {
    let mut text = String::new(alloc);
    for line in 0..lines {
        let folder = line / 1000;
        let doc_break = if line % 4 == 0 { "Y" } else { "" };
        let box_break = if line % 1000 == 0 { "Y" } else { "" };
        let pages = if line % 4 == 0 { "4" } else { "" };
        write!(
            text,
            "AB-{line:07},VOL001,IMAGES\\{folder:04}\\AB-{line:07}.tif,"
        )?;
        write!(text, "{doc_break},,{box_break},{pages}\r\n")?;
    }
    Ok(text)
}

fn sum_of(lines: &OptList) -> u64 {
    let mut sum = 0;
    for line in lines.as_slice() {
        sum = with_line(sum, line);
    }
    sum
}

fn with_line(sum: u64, line: &OptLine) -> u64 {
    let sum = with_text(sum, line.image.as_str().as_bytes());
    let sum = with_text(sum, line.volume.as_str().as_bytes());
    let sum = with_text(sum, line.path.as_str().as_bytes());
    let sum = with_text(sum, line.pages.as_str().as_bytes());
    let breaks = [line.doc_break, line.folder_break, line.box_break].map(u64::from);
    sum.wrapping_add(breaks[0] + 2 * breaks[1] + 4 * breaks[2])
}
