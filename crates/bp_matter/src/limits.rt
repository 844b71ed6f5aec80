// The limits of a matter.

/// The most members of the staff.
pub const MAX_STAFF: usize = 1_000;

/// The most fields.
pub const MAX_FIELDS: usize = 64;

/// The most documents.
pub const MAX_DOCUMENTS: usize = 10_000;

/// The most pages of all documents.
pub const MAX_PAGES: usize = 20_000;

/// The most pixels of all pages.
pub const MAX_PIXELS: u128 = 200_000_000_000;

/// The most pixels of all pages for which their strips may have any length.
pub const MAX_FREE_PIXELS: u128 = 4_000_000_000;

/// The most bytes of the strips of all pages that have more pixels than that.
pub const MAX_STRIP_BYTES: u128 = 2_000_000_000;

/// The most batches.
pub const MAX_BATCHES: usize = 1_000;

/// The most productions.
pub const MAX_PRODUCTIONS: usize = 1_000;

/// The greatest number of a box in its document.
pub const MAX_BOX: usize = 1_000;

/// The most bytes of a name, a date, an author and recipients.
pub const MAX_NAME: usize = 200;

/// The most bytes of a description.
pub const MAX_DESCRIPTION: usize = 1_000;

/// The most characters of a designation.
pub const MAX_DESIGNATION: usize = 40;

/// The most characters of the id of a production and of the names of volumes and batches.
pub const MAX_ID: usize = 32;
