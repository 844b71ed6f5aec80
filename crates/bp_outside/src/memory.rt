// Objects in memory that stand for the outside. Each fails at the calls it is told to fail at, so
// that what stands above it can be tried at each of its calls.
pub mod door;
pub mod folder;
pub mod output;
pub mod source;
