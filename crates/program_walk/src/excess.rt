//! What is above a limit.

ghost use Rattle.std.specs.Prelude.{◌≡◌, ◌<◌, ◌≤◌, IfSome, None};
ghost use Rattle.program_walk.specs.Excesses.{most_of};

/// A limit of what is made of a program.
#[derive(Clone, Copy)]
pub enum Limit {
    /// The components of a `PAR`.
    Components,
    /// The guards of an `ALT`.
    Guards,
    /// The turns of a replicated `IF`: each has a row.
    Turns,
    /// The words of the variables and channels that procedures in one another declare at once.
    Words,
    /// The items of the tables and the characters of the texts of a program.
    Items,
    /// The rows of a module, of those that constructs and instances surely have.
    Rows,
    /// The entries of these rows.
    Entries,
    /// The `PAR`s of a program, those of each instance.
    Pars,
    /// The `PAR`s in one another, those around an instance among them.
    Nesting,
    /// The processes in one another, those around an instance among them.
    Processes,
    /// The steps of a loop with those around it, at least four for each turn.
    Steps,
    /// The bytes of the code.
    Bytes,
    /// The different tables that code reads.
    Tables,
    /// The sizes of the lines that are written, those of each instance.
    Size,
    /// The steps of work beside writing.
    Work,
    /// How much of a sequential program is read, again under each replicator.
    Reading,
    /// How much of a turn of a replicated `IF` in a sequential program is read, and the most that is possible.
    TurnReading(u64),
    /// The words of the data area.
    Data,
    /// The steps from a place to the end of the program.
    Budget,
}

impl Limit {
    /// The most that is possible, as `COMPILER.md` has it.
    pub fn most(self) -> u64
        ensures { result ≡ most_of self }
    {
        match self {
            Limit::Components | Limit::Guards | Limit::Nesting => 64,
            Limit::Turns => 8_191,
            Limit::Words => 16_378,
            Limit::Items => 4_096,
            Limit::Rows => 8_192,
            Limit::Entries => 4_194_304,
            Limit::Pars | Limit::Tables => 1_024,
            Limit::Processes => 2_048,
            Limit::Steps | Limit::Budget => 4_611_686_018_427_387_904,
            Limit::Bytes => 262_143,
            Limit::Size => 8_388_608,
            Limit::Work => 400_000_000,
            Limit::Reading => 25_000_000,
            Limit::TurnReading(most) => most,
            Limit::Data => 16_384,
        }
    }
}

/// What is above a limit, and on which line.
#[derive(Clone, Copy)]
pub struct Excess {
    pub line: u32,
    pub limit: Limit,
    /// How many there are, on this line or up to it.
    pub count: u64,
    /// More than are possible.
    pub ghost above: { most_of limit < count },
}

impl Excess {
    /// This many on a line, if they are more than are possible.
    pub fn of(line: u32, limit: Limit, count: u64) -> Option<Excess>
        ensures some { IfSome result (λ e. (e.line ≡ line) × (e.limit ≡ limit) × (e.count ≡ count)) }
        ensures none { result ≡ None → count ≤ most_of limit }
    {
        if count > limit.most() {
            Some(Excess { line, limit, count })
        } else {
            None
        }
    }
}
