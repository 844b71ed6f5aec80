//! Pages: bilevel images as rows of pixels, kept as the packed strip of an uncompressed file.
#![tactic(auto)]

mod bits;
mod changes;
pub mod laws;
mod limits;
mod page;
mod paint;
mod resolution;
mod runs;

pub use bits::{bytes_of_row, bytes_of_strip};
pub use changes::place_in;
pub use limits::{MAX_WIDTH, allowed_sides, import_sides};
pub use page::{Page, StripFault};
pub use paint::push_row;
pub use resolution::{Res, Unit};
pub use runs::{Runs, push_runs};
