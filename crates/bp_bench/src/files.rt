// Page files: `read FILE TIMES` reads the page of a TIFF file so many times, and `judge FILE TIMES`
// tells as often whether the file holds one.
use anyhow::{Result, bail};
use bp_tiff::{judge_tiff, read_tiff};
use std::fs;

/// The sum of the pages' heights.
pub fn read(rt: &HostRuntime, operands: &[String]) -> Result<u64> {
    let (bytes, times) = file_and_times(rt, operands)?;
    let mut sum = 0u64;
    for _ in 0..times {
        match read_tiff(rt.alloc(), &bytes) {
            Ok(page) => sum = sum.wrapping_add(u64::from(page.height())),
            Err(_) => bail!("the file isn't read"),
        }
    }
    Ok(sum)
}

/// How often the file passed.
pub fn judge(rt: &HostRuntime, operands: &[String]) -> Result<u64> {
    let (bytes, times) = file_and_times(rt, operands)?;
    let mut passed = 0u64;
    for _ in 0..times {
        match judge_tiff(rt.alloc(), &bytes) {
            Ok(()) => passed = passed.wrapping_add(1),
            Err(_) => bail!("the file holds no page"),
        }
    }
    Ok(passed)
}

fn file_and_times(rt: &HostRuntime, operands: &[String]) -> Result<(Vec<u8>, u32)> {
    let [file, times] = operands else {
        bail!("FILE TIMES");
    };
    Ok((fs::read(rt, file.as_str())?, times.parse::<u32>()?))
}
