// Numbers with a meaning. They count from 1 where tables are valid, and hold any u32.

/// The number of a document in its matter.
#[derive(Clone, Copy, Debug, PartialEq, Eq, PartialOrd, Ord)]
pub struct DocNo(pub u32);

/// The number of a page in its document.
#[derive(Clone, Copy, Debug, PartialEq, Eq, PartialOrd, Ord)]
pub struct PageNo(pub u32);

/// The number of a member of the staff.
#[derive(Clone, Copy, Debug, PartialEq, Eq, PartialOrd, Ord)]
pub struct StaffNo(pub u32);
