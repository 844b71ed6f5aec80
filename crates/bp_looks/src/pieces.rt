// The texts that a field's value is cut into.
ghost use Rattle.std.specs.Prelude.{◌≡◌, IfOk, map};
ghost use Rattle.bp_looks.specs.Hits.{lent_texts};
ghost use Rattle.bp_looks.specs.Pieces.{pieces_of};

use bp_core::{OutOfMemory, Text};
use std::alloc::{AllocError, Global};

// The texts of a value, cut at every space, without empty ones.
pub(crate) fn pieces(alloc: Global, value: &Text) -> Result<Vec<&str>, OutOfMemory>
    ensures { IfOk result (λ pieces. lent_texts pieces.items ≡ pieces_of value.now) }
{
    let pieces = cut(alloc, value.as_str())?;
    Ok(pieces)
}

// The bytes of each.
fn cut(alloc: Global, value: &str) -> Result<Vec<&str>, AllocError>
    ensures { IfOk result (λ pieces. map (λ piece. piece.now) pieces.items ≡ pieces_of value.now) }
{
    value
        .split(' ')
        .filter(|piece| !piece.is_empty())
        .collect(alloc)
}
