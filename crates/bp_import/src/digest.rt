// The digest of all that an import reads.
ghost use Rattle.std.specs.Prelude.{◌≡◌, ℕ, List, [], ◌∷◌, ◌++◌};
ghost use Rattle.bp_import.specs.Digest.{HasTaken, digest_of};

use sha2::{Digest, Sha256};

/// The digest of files that are taken one after another: the SHA-256 (FIPS 180-4) of each one's
/// length as 64 bits, the low byte first, and its bytes.
#[derive(Drop)]
pub(crate) struct FilesDigest {
    hasher: Sha256,
}

impl FilesDigest {
    /// No file is taken yet.
    pub(crate) fn new() -> FilesDigest
        ensures { HasTaken result [] }
    {
        FilesDigest {
            hasher: Sha256::new(),
        }
    }

    /// Takes one more file.
    pub(crate) fn take(&mut self, bytes: &[u8])
        ensures { (files : List (List ℕ)) → HasTaken self.old files
            → HasTaken self.new (files ++ bytes.now ∷ []) }
    {
        let length = bytes.len() as u64;
        self.hasher.update(length.to_le_bytes());
        self.hasher.update(bytes);
    }

    /// The digest of the files that were taken.
    pub(crate) fn finish(self) -> [u8; 32]
        ensures { (files : List (List ℕ)) → HasTaken self files → result ≡ digest_of files }
    {
        self.hasher.finalize()
    }
}
