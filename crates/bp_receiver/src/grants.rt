// Grants: which receiver may take which production.
use bp_bates::Span;
use bp_core::{ListOf, StaffNo, Text};

/// How many grants stand at most.
pub const MAX_GRANTS: u64 = 1_000;

/// The number of that limit among those of MatterFull.
pub const GRANTS_LIMIT: u64 = 9;

/// A production that a receiver may take.
#[derive(Debug, Drop)]
pub struct Grant {
    /// The receiver's number among the staff.
    pub staff: StaffNo,
    /// The id of the production.
    pub id: Text,
}

/// A granted production, as it is listed.
#[derive(Debug, Drop)]
pub struct GrantedRow {
    /// The id of the production.
    pub id: Text,
    /// Its first and its last label number.
    pub span: Span,
}

pub type GrantList = ListOf<Grant>;

pub type GrantedList = ListOf<GrantedRow>;
