// The values of a tag (TIFF 6.0, section 2, IFD Entry).
ghost use Rattle.std.specs.Prelude.{◌≡◌, ◌+◌, ◌*◌, ◌≤◌, ◌<◌, length, IfOk, if◌then◌else◌};
ghost use Rattle.bp_tiff.specs.Directory.{IsIn};
ghost use Rattle.bp_tiff.specs.Values.{number_in_entry, number_of_tag, number_among, values_in, values_of_tag, nth_value, value_size, HasValues, resolution_in, resolution_of};

use crate::directory::{Directory, FoundEntry, find};
use crate::numbers::{long, short};
use crate::rules::{bounds, kind, meaning, missing, strips};
use crate::tags::{LONG, RATIONAL, SHORT};
use bp_core::Rule;
use bp_rows::Res;

/// Where the values of a tag stand, one for each strip.
#[derive(Clone, Copy, Debug)]
pub struct Values {
    pub are_long: bool,
    pub place: usize,
}

/// The value of a tag, or where there is no entry of it, the one that is given for this.
#[tactic(auto, unfolding(crate::specs::Values::number_of_tag))]
pub fn number(
    bytes: &[u8],
    directory: &Directory,
    tag: u16,
    otherwise: Option<u32>,
) -> Result<u32, Rule>
    requires { IsIn bytes.now directory.now }
    ensures { result ≡ number_of_tag bytes.now directory.now tag otherwise }
{
    match find(bytes, directory, tag) {
        None => otherwise.ok_or(missing(tag)),
        Some(entry) => number_of_entry(bytes, directory, tag, entry),
    }
}

fn number_of_entry(
    bytes: &[u8],
    directory: &Directory,
    tag: u16,
    entry: FoundEntry,
) -> Result<u32, Rule>
    requires { entry.place + 4 ≤ length bytes.now }
    ensures { result ≡ number_in_entry bytes.now directory.now tag entry }
{
    if entry.count != 1 {
        return Err(kind(tag));
    }
    match entry.kind {
        SHORT => Ok(u32::from(short(bytes, directory.order, entry.place))),
        LONG => Ok(long(bytes, directory.order, entry.place)),
        _ => Err(kind(tag)),
    }
}

/// The same, one of some values.
#[tactic(auto, unfolding(crate::specs::Values::number_among))]
pub fn number_among_these(
    bytes: &[u8],
    directory: &Directory,
    tag: u16,
    otherwise: Option<u32>,
    allowed: &[u32],
) -> Result<u32, Rule>
    requires { IsIn bytes.now directory.now }
    ensures { result ≡ number_among bytes.now directory.now tag otherwise allowed.now }
{
    let value = number(bytes, directory, tag, otherwise)?;
    if !allowed.contains(&value) {
        return Err(meaning(tag));
    }
    Ok(value)
}

/// Where the values of a tag stand, one for each of so many strips.
#[tactic(auto, unfolding(crate::specs::Values::values_of_tag))]
pub fn strip_values(bytes: &[u8], directory: &Directory, tag: u16, due: u32) -> Result<Values, Rule>
    requires { IsIn bytes.now directory.now }
    ensures gives { result ≡ values_of_tag bytes.now directory.now tag due }
    ensures inside { IfOk result (λ v. HasValues bytes.now v due) }
{
    match find(bytes, directory, tag) {
        None => Err(missing(tag)),
        Some(entry) => values_of_entry(bytes, directory, tag, due, entry),
    }
}

fn values_of_entry(
    bytes: &[u8],
    directory: &Directory,
    tag: u16,
    due: u32,
    entry: FoundEntry,
) -> Result<Values, Rule>
    requires { entry.place + 4 ≤ length bytes.now }
    ensures gives { result ≡ values_in bytes.now directory.now tag due entry }
    ensures inside { IfOk result (λ v. HasValues bytes.now v due) }
{
    if entry.kind != SHORT && entry.kind != LONG {
        return Err(kind(tag));
    }
    if entry.count != due {
        return Err(strips());
    }
    let size = if entry.kind == LONG { 4 } else { 2 } * entry.count as usize;
    let place = if size <= 4 {
        entry.place
    } else {
        long(bytes, directory.order, entry.place) as usize
    };
    if place + size > bytes.len() {
        return Err(bounds(tag));
    }
    Ok(Values {
        are_long: entry.kind == LONG,
        place,
    })
}

impl Values {
    /// Value k of these, counted from 0.
    pub fn at(&self, bytes: &[u8], directory: &Directory, k: u32) -> u32
        requires { HasValues bytes.now self.now (k + 1) }
        ensures { result ≡ nth_value bytes.now directory.now self.now k }
    {
        if self.are_long {
            long(bytes, directory.order, self.place + 4 * k as usize)
        } else {
            u32::from(short(bytes, directory.order, self.place + 2 * k as usize))
        }
    }
}

/// The resolution of a tag, or 200/1 where there is no entry of it.
#[tactic(auto, unfolding(crate::specs::Values::resolution_of))]
pub fn resolution(bytes: &[u8], directory: &Directory, tag: u16) -> Result<Res, Rule>
    requires { IsIn bytes.now directory.now }
    ensures { result ≡ resolution_of bytes.now directory.now tag }
{
    match find(bytes, directory, tag) {
        None => Ok(Res { num: 200, den: 1 }),
        Some(entry) => resolution_of_entry(bytes, directory, tag, entry),
    }
}

fn resolution_of_entry(
    bytes: &[u8],
    directory: &Directory,
    tag: u16,
    entry: FoundEntry,
) -> Result<Res, Rule>
    requires { entry.place + 4 ≤ length bytes.now }
    ensures { result ≡ resolution_in bytes.now directory.now tag entry }
{
    if entry.kind != RATIONAL || entry.count != 1 {
        return Err(kind(tag));
    }
    let place = long(bytes, directory.order, entry.place) as usize;
    if place + 8 > bytes.len() {
        return Err(bounds(tag));
    }
    Ok(Res {
        num: long(bytes, directory.order, place),
        den: long(bytes, directory.order, place + 4),
    })
}
