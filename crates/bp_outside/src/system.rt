// Adapters over the system's files, standard output and sockets. They tell no contents. What the
// system answered becomes an answer of theirs in functions over that answer, which have exact
// contracts. That each adapter asks the system for the right thing is tested, with a runtime of the
// tests' own, on a real disk and over real sockets.
mod answers;
pub mod file_folder;
pub mod file_source;
mod opened;
mod peers;
pub mod std_out;
pub mod tcp_door;
