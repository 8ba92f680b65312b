//! The limits of the format. A number above one is the fault `LIMIT`, but for the bounds of a frame, where
//! it is `RANGE`.

/// Bytes of code in version 1.
pub const MAX_CODE: u32 = 65_535;
/// Bytes of constants.
pub const MAX_CONSTANTS: u32 = 16_384;
/// Words of the data area.
pub const MAX_DATA_WORDS: u32 = 16_384;
/// Instruction bytes that a run may execute: 2 to the power of 62.
pub const MAX_BUDGET: u64 = 4_611_686_018_427_387_904;
/// Bytes of a message.
pub const MAX_MESSAGE: u32 = 4_096;
/// Procedure rows.
pub const MAX_PROCEDURES: u32 = 512;
/// Label rows.
pub const MAX_LABELS: u32 = 8_192;
/// PAR rows.
pub const MAX_PARS: u32 = 1_024;
/// Bytes of code in version 2.
pub const MAX_LONG_CODE: u32 = 262_143;
/// Table rows.
pub const MAX_TABLES: u32 = 1_024;
/// Parameters of a procedure.
pub const MAX_PARAMETERS: u16 = 64;
/// The least word at which a procedure's frame begins.
pub(crate) const MIN_FRAME_START: i32 = -16_384;
/// The least word before which a procedure's frame ends.
pub(crate) const MIN_FRAME_END: i32 = 4;
/// The greatest word before which a procedure's frame ends.
pub(crate) const MAX_FRAME_END: i32 = 16_384;
/// Branches of a PAR.
pub const MAX_BRANCHES: u16 = 64;
