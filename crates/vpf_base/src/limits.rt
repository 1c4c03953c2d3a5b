//! The bounds of what is read and written. Each stands here once; definitions cite the same constants.

/// The most bytes of a file.
pub const MOST_FILE_BYTES: u64 = 67_108_864;

/// The most bytes of all files that a run reads.
pub const MOST_LOADED_BYTES: u64 = 536_870_912;

/// The most bytes of a header's text.
pub const LONGEST_TEXT: u32 = 65_536;

/// The most columns of a table.
pub const MOST_COLUMNS: usize = 256;

/// The most bytes of a name in a header.
pub const LONGEST_NAME: usize = 255;

/// The most values that a field counts.
pub const MOST_VALUES: u32 = 67_108_864;

/// The most rows of a table.
pub const MOST_ROWS: u32 = 16_777_215;

/// The most tiles of a library.
pub const MOST_TILES: u32 = 65_535;
