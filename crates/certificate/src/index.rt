//! What look-ups need beside the tables.

ghost use Rattle.std.specs.Prelude.{◌≡◌, IfOk};
ghost use Rattle.module_format.specs.Contents.{contents_of};
ghost use Rattle.module_format.specs.Contexts.{branch_count};
ghost use Rattle.module_format.specs.Keeping.{Keeps};
ghost use Rattle.module_format.specs.Places.{ArePlaces};
ghost use Rattle.certificate.specs.Index.{IsIndex};

use crate::branch_runs::branch_runs_of;
use crate::judged::Judged;
use crate::judged_rows::JudgedRow;
use crate::marks::Marks;
use crate::named::named_of;
use crate::numbers::numbers_of;
use crate::owned::{OwnWords, own_words_of};
use crate::runs::ChannelRun;
use crate::starts::starts_of;
use crate::written::written_of;
use module_format::{Interval, Place, Tables};
use std::alloc::{AllocError, Global};

/// Tables that are made once, so that each look-up is short.
#[derive(Drop)]
pub(crate) struct Index {
    /// Where instructions start.
    pub starts: Marks,
    /// Where the rows of branches are, in the order of their contexts.
    pub places: Vec<Place>,
    /// At each code offset the context of the branch that begins there, or 0, up to the last branch.
    pub numbers: Vec<u32>,
    /// For each branch and each end of a frame word that it has, the run of channels from that word on.
    pub runs: Vec<Vec<ChannelRun>>,
    /// For each branch, the words that it has.
    pub own: Vec<OwnWords>,
    /// For each PAR row, the words that its branches write, as joined intervals.
    pub written: Vec<Vec<Interval>>,
    /// For each PAR row, the numbers of the parameters that its branches name, each once.
    pub named: Vec<Vec<i32>>,
    /// What was judged of branches, in the order of their contexts.
    pub judged: Vec<Judged>,
    /// What was judged of PAR rows.
    pub judged_rows: Vec<JudgedRow>,
}

impl Index {
    /// The index of tables, of which the places of the branches are known, with nothing judged. It takes memory in
    /// proportion to the code and the rows, and time that is n log n in them.
    pub(crate) fn new(
        alloc: Global,
        tables: &Tables,
        places: Vec<Place>,
    ) -> Result<Index, AllocError>
        requires keeps { Keeps (contents_of tables.now) }
        requires places { ArePlaces (contents_of tables.now) (branch_count (contents_of tables.now).pars) places.items }
        ensures { IfOk result (IsIndex (contents_of tables.now)) }
    {
        let starts = starts_of(alloc, tables)?;
        let numbers = numbers_of(alloc, tables, &places)?;
        let runs = branch_runs_of(alloc, tables, &places)?;
        let own = own_words_of(alloc, tables, &places)?;
        let written = written_of(alloc, tables)?;
        let named = named_of(alloc, tables)?;
        Ok(Index {
            starts,
            places,
            numbers,
            runs,
            own,
            written,
            named,
            judged: Vec::new(alloc),
            judged_rows: Vec::new(alloc),
        })
    }
}
