// Page files.
use anyhow::{Result, bail};
use bp_rows::{Page, Res, Unit};
use bp_tiff::read_tiff;
use std::alloc::Global;
use std::fs;

/// The page of a TIFF file, or 8 by 1 white pixels where the file is `-`.
pub fn page_of(rt: &HostRuntime, file: &str) -> Result<Page> {
    match file {
        "-" => small_page(rt.alloc()),
        _ => page_in(rt, file),
    }
}

fn page_in(rt: &HostRuntime, file: &str) -> Result<Page> {
    let bytes = fs::read(rt, file)?;
    match read_tiff(rt.alloc(), bytes.as_slice()) {
        Ok(page) => Ok(page),
        Err(_) => bail!("the file isn't read"),
    }
}

fn small_page(alloc: Global) -> Result<Page> {
    let dots = Res { num: 200, den: 1 };
    match Page::white(alloc, 8, 1, dots, dots, Unit::Inch) {
        Ok(page) => Ok(page),
        Err(_) => bail!("there is no page"),
    }
}
