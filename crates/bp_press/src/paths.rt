// How the files of a volume are spread over folders.

/// How many images of a volume have their files in one folder.
pub const IMAGES_A_FOLDER: u64 = 1000;

/// How many digits the name of such a folder has.
pub const FOLDER_DIGITS: u32 = 4;
