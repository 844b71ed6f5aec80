// Coding strips: `strips FILE PAGES TIMES` reads the strip of the page of a TIFF file so many times,
// and codes each page again.
ghost use Rattle.std.specs.Prelude.{◌<◌, ◌^◌, length};

use anyhow::{Result, bail};
use bp_codes::Fill;
use bp_rows::Page;
use bp_t6::{code_page, read_strip};
use bp_tiff::read_tiff;
use std::alloc::Global;
use std::fs;

/// The sum of the bytes of the strips.
pub fn run(rt: &HostRuntime, operands: &[String]) -> Result<u64> {
    let [file, pages, times] = operands else {
        bail!("strips FILE PAGES TIMES");
    };
    let (pages, times) = (pages.parse::<u32>()?, times.parse::<u32>()?);
    let image = page_of(rt, file.as_str())?;
    code_times(rt.alloc(), &image, pages, times)
}

fn page_of(rt: &HostRuntime, file: &str) -> Result<Page> {
    let bytes = fs::read(rt, file)?;
    match read_tiff(rt.alloc(), bytes.as_slice()) {
        Ok(page) => Ok(page),
        Err(_) => bail!("the file isn't read"),
    }
}

fn code_times(alloc: Global, image: &Page, pages: u32, times: u32) -> Result<u64> {
    let strip = code_page(alloc, image)?;
    let mut sum = 0u64;
    for _ in 0..times {
        let (width, height) = (image.width(), image.height());
        sum = sum.wrapping_add(code_pages(alloc, strip.as_slice(), width, height, pages)?);
    }
    Ok(sum)
}

// The pages stay until all are coded.
fn code_pages(alloc: Global, strip: &[u8], width: u32, height: u32, pages: u32) -> Result<u64>
    requires { length strip.now < 2 ^ 32 }
{
    let mut sum = 0u64;
    let mut read = Vec::new(alloc);
    for _ in 0..pages {
        let page = page_in(alloc, strip, width, height)?;
        sum = sum.wrapping_add(code_page(alloc, &page)?.len() as u64);
        read.push(page)?;
    }
    Ok(sum)
}

fn page_in(alloc: Global, strip: &[u8], width: u32, height: u32) -> Result<Page>
    requires { length strip.now < 2 ^ 32 }
{
    match read_strip(alloc, strip, Fill::High, width, height) {
        Ok(page) => Ok(page),
        Err(_) => bail!("the strip isn't read"),
    }
}
