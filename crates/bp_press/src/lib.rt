//! The volume of a frozen production: the image and the text of each item, the load files, the
//! privilege log and the manifest. `press` writes it whole to a folder, and `file_of` makes the one
//! file that has a path. Both contracts cite `volume_of` of specs/Volume.antt, a list of files that
//! the production and what a matter shows of it decide to the byte; specs/Writing.antt says what
//! files added to a folder are. The laws say what leaves no trace in a volume.
#![tactic(auto)]

mod adding;
mod batches;
mod contents;
mod covered;
mod entries;
mod families;
mod file_rows;
mod finding;
mod gate;
mod in_turn;
mod jobs;
mod laws;
mod lent;
mod load_files;
mod load_rows;
mod made_files;
mod manifest;
mod names;
mod pages;
pub mod paths;
mod pressing;
mod shown;
mod sought;
mod strips;
mod threads;
mod volume_files;

pub use batches::MadeFile;
pub use covered::Covered;
pub use finding::file_of;
pub use gate::{Gate, OpenGate};
pub use in_turn::FilesInTurn;
pub use jobs::{Job, JobList, StripList};
pub use laws::{images_are_read, same_product, same_volume, volume_stays};
pub use pressing::{PressRefusal, Pressed, press};
pub use strips::strips_of;
pub use threads::job_is_shared;
