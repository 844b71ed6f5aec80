// The batch that drawn documents come in.
ghost use Rattle.std.specs.Prelude.{◌≡◌, IfOk};
ghost use Rattle.sha2.specs.Sha256.{sha256};
ghost use Rattle.bp_matter.specs.Batches.{IsBatch};
ghost use Rattle.bp_demo.specs.Batch.{batch_of};

use crate::plain_texts::plain_text;
use bp_core::{ListOf, OutOfMemory};
use bp_matter::{Batch, BatchDoc};
use sha2::{Digest, Sha256};
use std::alloc::Global;

// The SHA-256 of bytes.
pub fn digest_of(bytes: &[u8]) -> [u8; 32]
    ensures { result ≡ sha256 bytes.now }
{
    Sha256::digest(bytes)
}

// A batch of these documents.
pub fn batch_of(alloc: Global, docs: Vec<BatchDoc>) -> Result<Batch, OutOfMemory>
    requires { IsBatch (batch_of docs.items) }
    ensures { IfOk result (λ batch. batch ≡ batch_of docs.items) }
{
    let name = plain_text(alloc, "demo")?;
    Ok(Batch {
        name,
        digest: digest_of(b""),
        fields: ListOf::new(alloc),
        docs: ListOf::from_vec(docs),
    })
}
