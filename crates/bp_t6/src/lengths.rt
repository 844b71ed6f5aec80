// The lengths in which the codes count.

/// Make-up codes stand for multiples of so many pixels, terminating codes for fewer (ITU-T T.6,
/// tables 2 and 3).
pub const MAKE_UP_STEP: u32 = 64;

/// How many make-up codes a colour has: those up to 1728 pixels and those of both colours up to
/// 2560 (ITU-T T.6, table 3).
pub const MAKE_UPS: u32 = 40;

/// The run of the longest make-up code, in pixels.
pub const LONGEST_MAKE_UP: u32 = MAKE_UP_STEP * MAKE_UPS;

/// How far a1 may stand from b1 in vertical mode, in pixels (ITU-T T.6, 2.2.3.2).
pub const VERTICAL_REACH: u32 = 3;

/// The most bits of a code.
pub const LONGEST_CODE: u8 = 13;

/// How many terminating codes a colour has, for runs of 0 to 63 pixels: the first rows of a run
/// table (ITU-T T.6, table 2).
pub const TERMINATING_CODES: usize = MAKE_UP_STEP as usize;

/// Make-up code n stands at this row plus n of a run table, behind the terminating codes.
pub const BEFORE_MAKE_UPS: usize = TERMINATING_CODES - 1;
