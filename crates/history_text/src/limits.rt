//! The limits of a history's text.

/// The most bytes of a line, without its line feed.
pub const LINE_MAX: usize = 65_536;

/// The most bytes of data of a request.
pub const REQUEST_DATA_MAX: usize = 8192;

/// The most paths of a history.
pub const PATHS_MAX: usize = 4096;

/// The most bytes of what programs call a path.
pub const PATH_TEXT_MAX: usize = 4096;

/// The most descriptors that a call or a return passes in a line.
pub const PASSES_MAX: usize = 32;

/// The most ports that one event of a line goes to.
pub const PORTS_MAX: usize = 16;
