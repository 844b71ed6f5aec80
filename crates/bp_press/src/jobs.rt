// The images of a volume as jobs, each of which a thread can make by itself.
use bp_core::{Basis, Bytes, DocNo, Ink, ListOf, PageNo, StampList, Text};

/// An image that is to be made.
#[derive(Debug, Drop)]
pub enum Job {
    /// A page of a document with stamps drawn over it, and a band with designation and label.
    Image {
        ink: Ink,
        doc: DocNo,
        page: PageNo,
        stamps: StampList,
        label: Text,
        designation: Text,
    },
    /// The sheet that stands for a document withheld on this ground, with its band.
    Slip {
        basis: Basis,
        label: Text,
        designation: Text,
    },
}

pub type JobList = ListOf<Job>;

pub type StripList = ListOf<Bytes>;
