//! What the check of a volume finds where it was pressed by bp_press: it passes. The law is the
//! contract of `own_volumes_pass`, which cites `check_of` of bp_check over `volume_of` of bp_press;
//! specs/OwnVolumes.antt says which operands and which counts these are. And by `each_file_is_found`
//! no path stands twice in such a volume.
#![tactic(auto)]

mod laws;

pub use laws::{each_file_is_found, own_volumes_pass};
