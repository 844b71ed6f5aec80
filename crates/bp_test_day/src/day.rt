// A matter with its keeper, and what lies ready for lines.
use crate::batches::Files;
use crate::commands::Outside;
use crate::given::Given;
use crate::presses::Shelf;
use anyhow::{Result, bail};
use bp_core::{ListOf, NumberList, Put, RowList};
use bp_keep::MemKeeper;
use bp_matter::Tables;
use bp_rules::{RunStep, begin};
use std::alloc::Global;

/// A matter with its keeper; the rows as they were marked; the rows and files that are given; what
/// waits to be put, or to be asked in one run; the files that were pressed; and what the next command
/// line meets outside.
#[derive(Drop)]
pub struct Day {
    pub(crate) alloc: Global,
    pub(crate) tables: Tables,
    pub(crate) keeper: MemKeeper,
    pub(crate) marked: RowList,
    pub(crate) puts: Vec<Put>,
    pub(crate) asked: Vec<RunStep>,
    pub(crate) given: Given,
    pub(crate) files: Files,
    pub(crate) pressed: Shelf,
    pub(crate) outside: Outside,
}

impl Day {
    /// A new matter, whose lead's key has the digest of zeros.
    pub fn new(alloc: Global) -> Result<Day> {
        let Ok(tables) = begin(alloc, [0; 32]) else {
            bail!("no matter begins");
        };
        let keeper = MemKeeper::over(RowList::new(alloc), NumberList::new(alloc));
        Ok(Day {
            alloc,
            tables,
            keeper,
            marked: ListOf::new(alloc),
            puts: Vec::new(alloc),
            asked: Vec::new(alloc),
            given: Given::new(alloc),
            files: Files::new(alloc),
            pressed: Shelf::new(alloc),
            outside: Outside::new(alloc),
        })
    }
}
