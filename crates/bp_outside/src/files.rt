// Files with their bytes.
ghost use Rattle.std.specs.Prelude.{◌≡◌};
ghost use Rattle.std.specs.List.{list_any};
ghost use Rattle.std.specs.Str.{bytes_eq};
ghost use Rattle.bp_outside.specs.Memory.{paths_differ};

use bp_core::{Bytes, ListOf, Text};

/// A file: its path below the folder or source that has it, and its bytes.
#[derive(Clone, Debug, PartialEq, Eq, Drop)]
pub struct FileRow {
    pub path: Text,
    pub bytes: Bytes,
}

pub type FileList = ListOf<FileRow>;

/// Whether no path stands twice. It compares each path with each later one.
pub fn paths_differ(files: &FileList) -> bool
    ensures { result ≡ paths_differ files.now }
{
    let mut rest = files.as_slice();
    while let Some((first, others)) = rest.split_first() {
        if has_path(others, &first.path) {
            return false;
        }
        rest = others;
    }
    true
}

fn has_path(files: &[FileRow], path: &Text) -> bool
    ensures { result ≡ list_any (λ file. bytes_eq file.path path.now) files.now }
{
    files.iter().any(|file| file.path == *path)
}
