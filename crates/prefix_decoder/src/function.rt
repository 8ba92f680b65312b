ghost use Rattle.std.specs.Prelude.{◌≡◌};
ghost use Rattle.prefix_decoder.specs.Functions.{code_of, fun_of};

/// A function of an instruction byte, other than the two prefixes. Its code is the high four bits of the
/// byte (T414 compiler writer's guide).
#[derive(Clone, Copy, Debug, PartialEq, Eq)]
pub enum Fun {
    /// `j`, code 0.
    Jump = 0x0,
    /// `ldlp`, code 1.
    LoadLocalPointer = 0x1,
    /// `ldnl`, code 3.
    LoadNonLocal = 0x3,
    /// `ldc`, code 4.
    LoadConstant = 0x4,
    /// `ldnlp`, code 5.
    LoadNonLocalPointer = 0x5,
    /// `ldl`, code 7.
    LoadLocal = 0x7,
    /// `adc`, code 8.
    AddConstant = 0x8,
    /// `call`, code 9.
    Call = 0x9,
    /// `cj`, code A.
    ConditionalJump = 0xa,
    /// `ajw`, code B.
    AdjustWorkspace = 0xb,
    /// `eqc`, code C.
    EqualsConstant = 0xc,
    /// `stl`, code D.
    StoreLocal = 0xd,
    /// `stnl`, code E.
    StoreNonLocal = 0xe,
    /// `opr`, code F: the operand is the number of an operation.
    Operate = 0xf,
}

/// The code of `pfix`, which shifts the operand left.
pub const PREFIX: u8 = 0x2;
/// The code of `nfix`, which complements the operand first.
pub const NEGATIVE_PREFIX: u8 = 0x6;

/// By code: the function, and none at the two prefixes.
const FUNCTIONS: [Option<Fun>; 16] = [
    Some(Fun::Jump),
    Some(Fun::LoadLocalPointer),
    None,
    Some(Fun::LoadNonLocal),
    Some(Fun::LoadConstant),
    Some(Fun::LoadNonLocalPointer),
    None,
    Some(Fun::LoadLocal),
    Some(Fun::AddConstant),
    Some(Fun::Call),
    Some(Fun::ConditionalJump),
    Some(Fun::AdjustWorkspace),
    Some(Fun::EqualsConstant),
    Some(Fun::StoreLocal),
    Some(Fun::StoreNonLocal),
    Some(Fun::Operate),
];

impl Fun {
    /// The function's code, the high four bits of its byte.
    pub fn code(self) -> u8
        ensures { result ≡ code_of self }
    {
        self as u8
    }

    /// The function with this code, none at the prefixes and above 15.
    pub fn from_code(code: u8) -> Option<Self>
        ensures { result ≡ fun_of code }
    {
        FUNCTIONS.get(usize::from(code)).copied().flatten()
    }
}
