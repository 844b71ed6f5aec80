// The path in the target of a file.
ghost use Rattle.std.specs.Prelude.{◌≡◌, IfOk};
ghost use Rattle.bp_receiver.specs.EventBodies.{path_bytes as bytes_spec, path_in};

use bp_core::{OutOfMemory, Text};
use bp_web::targets::{next_part, skip_one, text_of};
use std::alloc::Global;

// The path, which is all that stands behind the third slash.
pub(crate) fn path_in(alloc: Global, target: &[u8]) -> Result<Option<Text>, OutOfMemory>
    ensures { IfOk result (λ found. found ≡ path_in target.now) }
{
    text_of(alloc, path_bytes(target))
}

fn path_bytes(target: &[u8]) -> &[u8]
    ensures { result.now ≡ bytes_spec target.now }
{
    skip_one(next_part(next_part(target)))
}
