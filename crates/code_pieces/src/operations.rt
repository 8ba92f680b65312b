//! The operands by which `opr` chooses the operations that the code has.

/// `rev`
pub const REVERSE: i32 = 0x00;
/// `lb`
pub const LOAD_BYTE: i32 = 0x01;
/// `bsub`
pub const BYTE_SUBSCRIPT: i32 = 0x02;
/// `endp`
pub const END_PROCESS: i32 = 0x03;
/// `diff`
pub const DIFFERENCE: i32 = 0x04;
/// `add`
pub const ADD: i32 = 0x05;
/// `in`
pub const INPUT: i32 = 0x07;
/// `prod`
pub const PRODUCT: i32 = 0x08;
/// `gt`
pub const GREATER: i32 = 0x09;
/// `wsub`
pub const WORD_SUBSCRIPT: i32 = 0x0a;
/// `out`
pub const OUTPUT: i32 = 0x0b;
/// `sub`
pub const SUBTRACT: i32 = 0x0c;
/// `startp`
pub const START_PROCESS: i32 = 0x0d;
/// `stopp`
pub const STOP_PROCESS: i32 = 0x15;
/// `ldpi`
pub const LOAD_POINTER_TO_INSTRUCTION: i32 = 0x1b;
/// `rem`
pub const REMAINDER: i32 = 0x1f;
/// `lend`
pub const LOOP_END: i32 = 0x21;
/// `div`
pub const DIVIDE: i32 = 0x2c;
/// `disc`
pub const DISABLE_CHANNEL: i32 = 0x2f;
/// `diss`
pub const DISABLE_SKIP: i32 = 0x30;
/// `not`
pub const NOT: i32 = 0x32;
/// `xor`
pub const EXCLUSIVE_OR: i32 = 0x33;
/// `sb`
pub const STORE_BYTE: i32 = 0x3b;
/// `shr`
pub const SHIFT_RIGHT: i32 = 0x40;
/// `shl`
pub const SHIFT_LEFT: i32 = 0x41;
/// `mint`
pub const MINIMUM_INTEGER: i32 = 0x42;
/// `alt`
pub const ALTERNATE: i32 = 0x43;
/// `altwt`
pub const ALTERNATION_WAIT: i32 = 0x44;
/// `altend`
pub const ALTERNATION_END: i32 = 0x45;
/// `and`
pub const AND: i32 = 0x46;
/// `enbc`
pub const ENABLE_CHANNEL: i32 = 0x48;
/// `enbs`
pub const ENABLE_SKIP: i32 = 0x49;
/// `move`
pub const MOVE: i32 = 0x4a;
/// `or`
pub const OR: i32 = 0x4b;
/// `sum`
pub const SUM: i32 = 0x52;
/// `mul`
pub const MULTIPLY: i32 = 0x53;
