//! The numbers by which a file distinguishes variants.

/// The tag of `Fact::Unknown`.
pub const TAG_UNKNOWN: u8 = 0;
/// The tag of `Fact::Number`.
pub const TAG_NUMBER: u8 = 1;
/// The tag of `Fact::Pointer`.
pub const TAG_POINTER: u8 = 2;
/// The tag of `Fact::CodeAddress`.
pub const TAG_CODE_ADDRESS: u8 = 3;
/// The tag of `Fact::Loop`.
pub const TAG_LOOP: u8 = 4;
/// The tag of `Fact::ReturnAddress`.
pub const TAG_RETURN_ADDRESS: u8 = 5;

/// The kind of `ParameterKind::Value`.
pub const KIND_VALUE: u8 = 0;
/// The kind of `ParameterKind::ReadRegion`.
pub const KIND_READ_REGION: u8 = 1;
/// The kind of `ParameterKind::WrittenRegion`.
pub const KIND_WRITTEN_REGION: u8 = 2;
/// The kind of `ParameterKind::Channels`.
pub const KIND_CHANNELS: u8 = 3;

/// The kind of `EndKind::FrameWord`.
pub const END_FRAME_WORD: u8 = 0;
/// The kind of `EndKind::Parameter`.
pub const END_PARAMETER: u8 = 1;
/// The kind of `EndKind::Link`, the greatest.
pub const END_LINK: u8 = 2;

/// The number of `Direction::In`.
pub const DIRECTION_IN: u8 = 1;
/// The number of `Direction::Out`.
pub const DIRECTION_OUT: u8 = 2;
