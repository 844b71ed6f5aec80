// The lines of the manifest.
ghost use Rattle.std.specs.Prelude.{◌≡◌, ◌++◌, ℕ, List, OnOk};
ghost use Rattle.sha2.specs.Sha256.{sha256};
ghost use Rattle.bp_outside.specs.Folder.{file};
ghost use Rattle.bp_press.specs.Manifest.{manifest_line};

use bp_core::{OutOfMemory, Text};
use sha2::{Digest, Sha256};

// The digest of bytes.
pub(crate) fn digest_of(bytes: &[u8]) -> [u8; 32]
    ensures { result ≡ sha256 bytes.now }
{
    Sha256::digest(bytes)
}

#[tactic(auto, unfolding(crate::specs::Manifest::manifest_line))]
// Adds the line of a file of this digest.
pub(crate) fn add_line(
    manifest: &mut Vec<u8>,
    path: &Text,
    digest: [u8; 32],
) -> Result<(), OutOfMemory>
    ensures { (bytes : List ℕ) → digest ≡ sha256 bytes
        → OnOk result (manifest.new.items ≡
        manifest.old.items ++ manifest_line (file path.now bytes)) }
{
    let mut hex = [0; 64];
    if hex::encode_to_slice(digest, &mut hex).is_err() {
        unreachable!();
    }
    manifest.extend_from_slice(&hex)?;
    manifest.extend_from_slice(b"  ")?;
    manifest.extend_from_slice(path.as_str().as_bytes())?;
    manifest.extend_from_slice(b"\n")?;
    Ok(())
}
