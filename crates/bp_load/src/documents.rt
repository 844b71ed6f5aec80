// What load files say of a document.
ghost use Rattle.std.specs.Prelude.{◌≡◌, ◌≤◌, length};
ghost use Rattle.bp_load.specs.Documents.{docs_after, is_begdoc, until_break};

use crate::opt::OptLine;
use bp_core::Text;

/// Whether the column names the first page of a document.
pub fn is_begdoc(column: &Text) -> bool
    ensures { result ≡ is_begdoc column.now }
{
    column.as_str() == "BEGDOC"
}

/// The documents that are left after a line: where a document begins at it, all but the first.
pub fn docs_after<'a, D>(left: &'a [D], line: &OptLine) -> &'a [D]
    ensures { result.now ≡ docs_after left.now line.now }
{
    if !line.doc_break {
        return left;
    }
    match left.split_first() {
        Some((_, others)) => others,
        None => left,
    }
}

/// How many lines stand before the next at which a document begins.
pub fn until_break(lines: &[OptLine]) -> usize
    ensures count { result ≡ until_break lines.now }
    ensures bound { result ≤ length lines.now }
{
    let mut count = 0;
    for line in lines {
        if line.doc_break {
            break;
        }
        count += 1;
    }
    count
}
