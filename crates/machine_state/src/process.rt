//! One process: its registers, and what it is doing.

ghost use Rattle.std.specs.Prelude.{◌≡◌, ◌+◌, ◌*◌, ◌<◌, ◌^◌, None};
ghost use Rattle.module_format.specs.Contents.{contents_of};
ghost use Rattle.machine_state.specs.Memory.{data_start};
ghost use Rattle.machine_state.specs.World.{root_task};

use crate::address::DATA_START;
use module_format::{Stack, Tables};

/// A word of 32 bits as a signed number, or undefined.
pub type Word = Option<i32>;

/// The registers of one process.
#[derive(Clone, Copy, PartialEq, Eq)]
pub struct Registers {
    /// The address of its workspace, a multiple of 4.
    pub workspace: u32,
    /// The code offset of the next byte.
    pub at: u32,
    /// The code offset where the present instruction began, its prefixes included.
    pub began: u32,
    /// The operand so far.
    pub operand: i32,
    pub stack: Stack<Word>,
}

/// What a process is in the middle of, apart from waiting.
#[derive(Clone, Copy)]
pub enum Mode {
    Plain,
    /// Between `alt` and `altwt`: whether something that is enabled is ready.
    Enabling { is_ready: bool },
    /// Between `altwt` and `altend`, with the selected distance.
    Disabling { selection: Option<i32> },
    /// Between the first `startp` of a PAR and the `endp` of the process that starts the branches.
    Starting,
}

/// A message that is being sent or received.
#[derive(Clone, Copy)]
pub struct Exchange {
    /// The channel's address.
    pub channel: u32,
    /// The address of the message's first byte.
    pub address: u32,
    /// How many bytes the message has.
    pub length: u32,
}

/// Whether a process can run, and what it waits for.
#[derive(Clone, Copy)]
pub enum Condition {
    /// It runs, or is in the ready list.
    Ready,
    /// It waits for a receiver on an internal channel.
    Sending(Exchange),
    /// It waits for a sender on an internal channel.
    Receiving(Exchange),
    /// It waits on a link: for bytes, of which some have come, or for an acknowledgement.
    OnLink { exchange: Exchange, done: u32 },
    /// It waits for one of the guards that it has enabled.
    Alternating,
    /// It has stopped for good.
    Stopped,
    /// It has ended in its join.
    Ended,
}

/// A process at a moment.
#[derive(Clone, Copy)]
pub struct Task {
    pub registers: Registers,
    pub mode: Mode,
    pub condition: Condition,
}

impl Task {
    /// The root of a loaded module: at the first byte of the code, with its workspace at the data word that
    /// the module says and undefined registers.
    pub fn root(tables: &Tables) -> Self
        requires { data_start + 4 * tables.now.base < 2 ^ 32 }
        ensures { result ≡ root_task (contents_of tables.now) }
    {
        Task {
            registers: Registers {
                workspace: DATA_START + 4 * tables.base,
                at: 0,
                began: 0,
                operand: 0,
                stack: Stack::of_empty(None),
            },
            mode: Mode::Plain,
            condition: Condition::Ready,
        }
    }
}

/// An internal channel of an open join.
#[derive(Clone, Copy)]
pub struct Channel {
    /// The opener of the join.
    pub opener: u64,
    /// The length of its messages in bytes.
    pub length: u32,
    /// The process that waits there, to send or to receive.
    pub waiting: Option<u64>,
    /// The process whose alternation has enabled it.
    pub enabled: Option<u64>,
}
