// The file of a list that has a path.
ghost use Rattle.std.specs.Prelude.{◌≡◌, ◌++◌, ℕ, All, IfOk, IsTrue, List, encode_utf8_all, false, true};
ghost use Rattle.std.specs.Str.{bytes_eq};
ghost use Rattle.bp_bates.specs.Prefixes.{is_good_prefix};
ghost use Rattle.bp_freeze.specs.Log.{label_in};
ghost use Rattle.bp_press.specs.Needs.{IsLabelled};
ghost use Rattle.bp_press.specs.Sought.{EndsWithLabel};
ghost use Rattle.bp_press.specs.VolumeFiles.{CanBeNamed, entry_at, entry_path};

use crate::file_rows::file_path;
use crate::names::LABEL;
use crate::volume_files::VolumeFile;
use bp_bates::{Prefix, label_into};
use bp_core::{OutOfMemory, Text};
use bp_matter::Production;
use std::alloc::Global;

// The ends of the names of images and of texts, behind their labels.
pub(crate) const IMAGE_END: [u8; 4] = *b".TIF";

pub(crate) const TEXT_END: [u8; 4] = *b".TXT";

// Whether a path ends with the label of this number, and then with this. No text is made.
pub(crate) fn ends_with_label(path: &Text, prefix: &Prefix, number: u64, end: &[u8; 4]) -> bool
    requires good { IsTrue (is_good_prefix prefix.now.text prefix.now.width) }
    requires label { IsLabelled prefix.now.width number }
    requires ascii { encode_utf8_all end.now ≡ end.now }
    ensures found { (front : List ℕ) → path.now ≡ front ++ (label_in prefix.now number ++ end.now)
        → result ≡ true }
    ensures ends { result ≡ true → EndsWithLabel path.now prefix.now number end.now }
{
    let mut into = [0; LABEL];
    let length = label_into(prefix, number, &mut into);
    match path.as_str().as_bytes().strip_suffix(end) {
        Some(rest) => rest.ends_with(&into[..length]),
        None => false,
    }
}

// Whether a file may have the path, by its label: a file of all items may.
fn may_have(production: &Production, file: &VolumeFile, path: &Text) -> bool
    requires { CanBeNamed production.now file.now }
    ensures { result ≡ false → bytes_eq (entry_path production.now file.now) path.now ≡ false }
{
    let prefix = &production.request.prefix;
    match *file {
        VolumeFile::Page {
            item,
            place: _,
            page,
        } => ends_with_label(path, prefix, item.span.first + u64::from(page), &IMAGE_END),
        VolumeFile::Sheet {
            item,
            place: _,
            basis: _,
            sheet,
        } => ends_with_label(path, prefix, item.span.first + u64::from(sheet), &IMAGE_END),
        VolumeFile::Text { item, place: _ } => {
            ends_with_label(path, prefix, item.span.first, &TEXT_END)
        }
        _ => true,
    }
}

// Whether a file has the path. The text of its own path is made only where it may.
fn has_path(
    alloc: Global,
    production: &Production,
    file: &VolumeFile,
    path: &Text,
) -> Result<bool, OutOfMemory>
    requires { CanBeNamed production.now file.now }
    ensures { IfOk result (λ is. is ≡ bytes_eq (entry_path production.now file.now) path.now) }
{
    if !may_have(production, file, path) {
        return Ok(false);
    }
    let own = file_path(alloc, production, file)?;
    Ok(own == *path)
}

// The first of these files that has the path. It sees nothing that a file is made of.
pub(crate) fn entry_at<'p>(
    alloc: Global,
    production: &Production,
    list: &[VolumeFile<'p>],
    path: &Text,
) -> Result<Option<VolumeFile<'p>>, OutOfMemory>
    requires { All (CanBeNamed production.now) list.now }
    ensures { IfOk result (λ found. found ≡ entry_at production.now path.now list.now) }
{
    for file in list {
        if has_path(alloc, production, file, path)? {
            return Ok(Some(*file));
        }
    }
    Ok(None)
}
