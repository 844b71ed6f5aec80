// Files that were made for a want, and stay ready for the next that asks for them.
ghost use Rattle.std.specs.Prelude.{◌≡◌, ◌∷◌, None, false, true, ◌↔◌, IfOk, OnErr, OnOk};
ghost use Rattle.std.specs.List.{find};
ghost use Rattle.std.specs.Option.{option_copied};
ghost use Rattle.bp_matter.specs.Matter.{Matter};
ghost use Rattle.bp_receiver.specs.Ready.{AreReady, IsGiven, IsOfOneItem, KeepsFile, is_ready_at};

use bp_core::{Bytes, OutOfMemory, Text};

/// A file of a production, as it was made.
#[derive(Debug, Drop)]
pub(crate) struct ReadyFile {
    /// The id of the production.
    pub(crate) id: Text,
    /// Its path in the volume.
    pub(crate) path: Text,
    pub(crate) bytes: Bytes,
}

// The file of that path, of the production of that id, that is ready.
pub(crate) fn ready_at<'a>(ready: &'a [ReadyFile], id: &Text, path: &Text) -> Option<&'a ReadyFile>
    ensures { option_copied result ≡ find (is_ready_at id.now path.now) ready.now }
{
    ready
        .iter()
        .find(|file| file.id == *id && file.path == *path)
}

// The bytes of a ready file, in memory of their own.
pub(crate) fn copy_of(bytes: &Bytes) -> Result<Bytes, OutOfMemory>
    ensures { IfOk result (λ copy. copy ≡ bytes.now) }
{
    Ok(bytes.clone()?)
}

// From now on a file that wasn't is ready, where there is memory for it. Those of a page or a text are
// made fast, and many; a manifest or a load file is made of all others, and a production has four.
pub(crate) fn keep_ready(
    ready: &mut Vec<ReadyFile>,
    id: &Text,
    path: &Text,
    bytes: &Bytes,
) -> Result<(), OutOfMemory>
    requires { find (is_ready_at id.now path.now) ready.old.items ≡ None }
    ensures ready { (m : Matter)
        → IsGiven m id.now path.now bytes.now
        → AreReady m ready.old.items
        → AreReady m ready.new.items }
    ensures kept { OnOk result (KeepsFile ready.old.items (record {
      id = id.now;
      path = path.now;
      bytes = bytes.now;
    }) ready.new.items) }
    ensures lacked { OnErr result (ready.new.items ≡ ready.old.items) }
{
    if is_of_one_item(path) {
        return Ok(());
    }
    add_ready(ready, id, path, bytes)
}

// Whether a path is one of an image or of a text.
fn is_of_one_item(path: &Text) -> bool
    ensures { (result ≡ true) ↔ IsOfOneItem path.now }
{
    let path = path.as_str();
    path.contains("/IMAGES/") || path.contains("/TEXT/")
}

// One file more that is ready.
fn add_ready(
    ready: &mut Vec<ReadyFile>,
    id: &Text,
    path: &Text,
    bytes: &Bytes,
) -> Result<(), OutOfMemory>
    ensures added { OnOk result (ready.new.items ≡ record {
      id = id.now;
      path = path.now;
      bytes = bytes.now;
    } ∷ ready.old.items) }
    ensures refused { OnErr result (ready.new.items ≡ ready.old.items) }
{
    let id = id.clone()?;
    let path = path.clone()?;
    let bytes = copy_of(bytes)?;
    ready.insert(0, ReadyFile { id, path, bytes })?;
    Ok(())
}
