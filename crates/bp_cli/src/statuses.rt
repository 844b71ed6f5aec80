// The statuses that the program ends with.

/// All was done.
pub const DONE: u8 = 0;

/// The words are no command line.
pub const WORDS_REFUSED: u8 = 1;

/// A rule is broken.
pub const RULE_BROKEN: u8 = 2;

/// The source failed.
pub const SOURCE_FAULT: u8 = 3;

/// The folder failed.
pub const FOLDER_FAULT: u8 = 4;

/// The keeper failed.
pub const KEEPER_FAULT: u8 = 5;

/// There was too little memory.
pub const OUT_OF_MEMORY: u8 = 6;

/// The out failed.
pub const OUT_FAULT: u8 = 7;
