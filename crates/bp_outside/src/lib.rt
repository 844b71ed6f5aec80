//! The outside: where bytes come from and go to.
//!
//! `Source`, `Folder`, `Out` and `Door` are the world as traits. Each has one ghost view, `shows`,
//! which contracts cite (`SourceView`, `FolderView`, `OutView`, `DoorView`): what is held, where
//! that is told, and counts that never fall. A refusal raises the count of its own cause.
//! `MemSource`, `MemFolder`, `MemOut` and `MemDoor` tell all that they hold; `FileSource`,
//! `FileFolder`, `StdOut` and `TcpDoor` stand on the system and tell nothing. A whole file is put by
//! `put_file` or `put_parts`, and a whole piece by `write_all`; the input of an exchange is read by
//! `read_input`, and its reply sent by `send`.
#![tactic(auto)]

mod counts;
mod door;
mod exchange;
mod files;
mod folder;
mod input;
mod memory;
mod output;
mod refusals;
mod source;
mod system;

pub use door::{Door, send};
pub use exchange::{BytesList, Exchange};
pub use files::{FileList, FileRow, paths_differ};
pub use folder::{Folder, put_file, put_parts};
pub use input::{Enough, INPUT_CHUNK, InputStop, read_input};
pub use memory::door::{MemDoor, PASS_LIMIT};
pub use memory::folder::{APPEND_LIMIT, MemFolder};
pub use memory::output::{MemOut, WRITE_LIMIT};
pub use memory::source::MemSource;
pub use output::{Out, write_all};
pub use refusals::{DoorRefusal, FolderRefusal, OutRefusal, ReadRefusal};
pub use source::Source;
pub use system::file_folder::FileFolder;
pub use system::file_source::FileSource;
pub use system::std_out::StdOut;
pub use system::tcp_door::{BASE_PORT, DESK_LIMIT, TcpDoor};
