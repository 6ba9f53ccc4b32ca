//! The limits of inputs, values, requests and sessions: `specs/Limits.antt`.

/// The most bytes of a document: 16 MiB, and the 16 KiB that a server may add.
pub const LONGEST_DOCUMENT: usize = 16_793_600;

/// The most bytes of an input.
pub const LONGEST_INPUT: u64 = 4_294_967_295;

/// The most bytes of a command to a session, and so of a line without its newline: 16 MiB.
pub const LONGEST_COMMAND: usize = 16_777_216;

/// The most reads of an input: one for each byte, and the one that finds the end.
pub const MOST_READS: u64 = 4_294_967_296;

/// The most levels of nested documents and arrays.
pub const MOST_LEVELS: usize = 200;

/// The most levels of nested brackets in JSON: three more, since a value at the deepest level may be a wrapper with an object
/// in an object.
pub const MOST_BRACKETS: usize = 203;

/// The most names of a path.
pub const MOST_NAMES: usize = 100;

/// The most levels of a filter; the top is level 1.
pub const MOST_FILTER_LEVELS: u32 = 50;

/// The greatest skip, limit and batch size.
pub const GREATEST_COUNT: u64 = 2_147_483_647;

/// The most indexes in a session.
pub const MOST_INDEXES: usize = 16;

/// The most cursors that are open in a session.
pub const MOST_CURSORS: usize = 64;
