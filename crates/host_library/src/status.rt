//! The statuses of the calls.

/// The module is certified, and all that was asked for is written.
pub const ACCEPTED: u8 = 0;
/// The bytes are no module file.
pub const NO_MODULE: u8 = 1;
/// The module is not certified.
pub const NOT_CERTIFIED: u8 = 2;
/// Memory ran out.
pub const OUT_OF_MEMORY: u8 = 3;
/// One of the events is none.
pub const NO_EVENT: u8 = 4;
/// What was sent is longer than the buffer.
pub const TOO_SMALL: u8 = 5;
/// No machine is loaded.
pub const NOT_LOADED: u8 = 6;
