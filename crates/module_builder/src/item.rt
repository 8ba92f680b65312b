//! What a draft is made of.

use prefix_decoder::Fun;

/// A place in the code of a draft, by a name. Only a draft makes labels.
#[derive(Clone, Copy)]
pub struct Label {
    pub(crate) index: usize,
}

/// The operand of an instruction.
#[derive(Clone, Copy)]
pub enum Operand {
    /// A number; of `opr` the operation's.
    Number(i32),
    /// The distance from the end of the instruction to a label, as `j`, `cj` and `call` take it.
    DistanceTo(Label),
    /// The distance from one label to another, as `lend`, `startp`, `disc`, `diss` and `ldpi` take it.
    Between { from: Label, to: Label },
}

/// An item of a draft.
#[derive(Clone, Copy)]
pub enum Item {
    /// An instruction.
    Instruction { fun: Fun, operand: Operand },
    /// The address of a byte of the constants: `ldc` with the distance to it, `adc 0` where a byte is left to
    /// fill, and `ldpi`.
    ConstantAddress { offset: u16 },
}
