// What an import reads, before it becomes rows of a matter.
ghost use Rattle.bp_matter.specs.Batches.{IsBatch};

use crate::kept_page::KeptPage;
use bp_core::{ListOf, Text, TextList};
use bp_text::WordList;
use std::marker::Model;

pub type BatchDocList = ListOf<BatchDoc>;

pub type BatchPageList = ListOf<BatchPage>;

/// A page that comes in, and its words.
#[derive(Debug, Drop)]
pub struct BatchPage {
    pub page: KeptPage,
    pub words: WordList,
}

/// A document that comes in.
#[derive(Debug, Drop)]
pub struct BatchDoc {
    pub id: Text,
    /// The place of its parent among the documents of the batch, from 1.
    pub parent: u32,
    /// A value for each field of the batch, in their order.
    pub values: TextList,
    pub pages: BatchPageList,
}

/// What an import reads. It is always such that the rows that it becomes are valid but for the
/// limits of the matter that they come into (`IsBatch`).
#[derive(Debug, Drop)]
pub struct Batch {
    pub name: Text,
    /// The SHA-256 of all that was read.
    pub digest: [u8; 32],
    pub fields: TextList,
    pub docs: BatchDocList,
}

impl Model for Batch {
    ghost use Rattle.bp_matter.specs.Batches.{BatchShown, IsBatch};

    ghost Value = { BatchShown };

    ghost view = { λ b. record {
      name = b.name;
      digest = b.digest;
      fields = b.fields;
      docs = b.docs;
    } };

    ghost invariant = { λ b. IsBatch (record {
      name = b.name;
      digest = b.digest;
      fields = b.fields;
      docs = b.docs;
    }) };
}

impl Batch {
    /// Says what holds of the batch.
    pub fn know_batch(&self)
        ensures { IsBatch self.now }
    {
        let _name = &self.name;
    }
}
