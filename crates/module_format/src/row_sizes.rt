//! The bytes of rows, and of their fields, in a file.

/// The bytes of a tag, before what it describes.
pub const TAG_SIZE: usize = 1;
/// The bytes of a number of items.
pub const COUNT_SIZE: usize = 2;
/// The bytes of an entry before its fact.
pub const ENTRY_HEAD_SIZE: usize = 8;
/// The bytes of a label row before its context.
pub const LABEL_OFFSET_SIZE: usize = 4;
/// The bytes of a label row before its facts.
pub const LABEL_HEAD_SIZE: usize = 18;
/// The bytes of a channel of a PAR.
pub const CHANNEL_SIZE: usize = 8;
/// The bytes of a PAR row before its channels.
pub const PAR_HEAD_SIZE: usize = 18;
/// The bytes of an interval.
pub const INTERVAL_SIZE: usize = 8;
/// The bytes of a branch before its intervals.
pub const BRANCH_HEAD_SIZE: usize = 18;
/// The bytes of a parameter's number.
pub const PARAMETER_NUMBER_SIZE: usize = 2;
/// The bytes of a channel end.
pub const END_SIZE: usize = 10;
