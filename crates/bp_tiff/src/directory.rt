// The header and the directory of a file (TIFF 6.0, section 2).
ghost use Rattle.std.specs.Prelude.{◌≡◌, ◌+◌, ◌*◌, ◌≤◌, ◌<◌, length, IfOk, IfSome, Some};
ghost use Rattle.std.specs.Option.{ok_or};
ghost use Rattle.bp_tiff.specs.Rules.{tiff_head};
ghost use Rattle.bp_tiff.specs.Directory.{order_of, directory_in, directory_of, IsIn, directory_entry, entry_of_tag};

use crate::numbers::{ByteOrder, long, short};
use crate::places::{ENTRY_BYTES, HEADER_BYTES, MAGIC};
use crate::rules::{bounds, head, more_pages};
use bp_core::Rule;

/// Where the entries of a file's directory stand, and in which byte order its numbers are.
#[derive(Clone, Copy, Debug)]
pub struct Directory {
    pub order: ByteOrder,
    /// The place of the first entry.
    pub first: usize,
    /// How many entries there are.
    pub count: u16,
}

/// An entry of a directory that was found.
#[derive(Clone, Copy, Debug)]
pub struct FoundEntry {
    /// The type of its values.
    pub kind: u16,
    /// How many values there are.
    pub count: u32,
    /// Where the four bytes stand that are the values, or say where these stand.
    pub place: usize,
}

/// The directory of a file.
pub fn read_directory(bytes: &[u8]) -> Result<Directory, Rule>
    ensures gives { result ≡ directory_of bytes.now }
    ensures inside { IfOk result (IsIn bytes.now) }
{
    if bytes.len() < HEADER_BYTES {
        return Err(head());
    }
    match byte_order(bytes) {
        Some(order) => directory_of_order(bytes, order),
        None => Err(head()),
    }
}

fn byte_order(bytes: &[u8]) -> Option<ByteOrder>
    requires { HEADER_BYTES ≤ length bytes.now }
    ensures { result ≡ order_of bytes.now }
{
    let mark = &bytes[..2];
    if mark == b"II".as_slice() {
        Some(ByteOrder::Little)
    } else if mark == b"MM".as_slice() {
        Some(ByteOrder::Big)
    } else {
        None
    }
}

#[tactic(auto, unfolding(crate::specs::Directory::directory_in))]
fn directory_of_order(bytes: &[u8], order: ByteOrder) -> Result<Directory, Rule>
    requires { HEADER_BYTES ≤ length bytes.now }
    ensures gives { result ≡ directory_in bytes.now order }
    ensures inside { IfOk result (IsIn bytes.now) }
{
    if short(bytes, order, 2) != MAGIC {
        return Err(head());
    }
    let at = long(bytes, order, 4) as usize;
    if at + 2 > bytes.len() {
        return Err(bounds(0));
    }
    let count = short(bytes, order, at);
    let end = at + 2 + ENTRY_BYTES * count as usize;
    if end + 4 > bytes.len() {
        return Err(bounds(0));
    }
    if long(bytes, order, end) != 0 {
        return Err(more_pages());
    }
    Ok(Directory {
        order,
        first: at + 2,
        count,
    })
}

/// The first entry of a tag.
#[tactic(auto, unfolding(crate::specs::Directory::entry_of_tag))]
pub fn find(bytes: &[u8], directory: &Directory, tag: u16) -> Option<FoundEntry>
    requires { IsIn bytes.now directory.now }
    ensures gives { result ≡ entry_of_tag bytes.now directory.now tag }
    ensures inside { IfSome result (λ e. e.place + 4 ≤ length bytes.now) }
{
    for k in 0..directory.count {
        let at = directory.first + ENTRY_BYTES * k as usize;
        if short(bytes, directory.order, at) == tag {
            return Some(read_entry(bytes, directory.order, at));
        }
    }
    None
}

fn read_entry(bytes: &[u8], order: ByteOrder, at: usize) -> FoundEntry
    requires { at + ENTRY_BYTES ≤ length bytes.now }
    ensures { result ≡ directory_entry order bytes.now at }
{
    FoundEntry {
        kind: short(bytes, order, at + 2),
        count: long(bytes, order, at + 4),
        place: at + 8,
    }
}
