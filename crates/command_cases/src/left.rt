//! What a command line leaves.

use crate::command::Command;
use crate::files::CaseFiles;
use crate::folder::Folder;
use crate::setting::Setting;
use crate::stream::Stream;
use crate::words::words_of;
use conformance::Answer;
use std::alloc::Global;

/// What a command line leaves: its status, what was written on both streams, and the files.
#[derive(Drop)]
pub(crate) struct Left {
    pub(crate) status: u8,
    pub(crate) out: Vec<u8>,
    pub(crate) err: Vec<u8>,
    pub(crate) folder: Folder,
}

/// Runs a command line in a folder, with a standard output that takes so many bytes.
fn run<C: Command>(
    alloc: Global,
    line: &str,
    folder: &Folder,
    room: usize,
) -> Option<(u8, Vec<u8>, Vec<u8>)> {
    let words = words_of(alloc, line)?;
    let mut files = CaseFiles { alloc, folder };
    let mut out = Stream::new(alloc, room);
    let mut err = Stream::new(alloc, usize::MAX);
    let trace = Stream::new(alloc, 0);
    let status = C::act(
        alloc,
        words.as_slice(),
        &mut files,
        &mut out,
        &mut err,
        trace,
    );
    Some((status, out.into_bytes(), err.into_bytes()))
}

/// Runs the command lines of a case. None: a command that is run before fails, or memory runs out.
pub(crate) fn run_case<C: Command>(setting: &Setting, size: usize, room: usize) -> Option<Left> {
    let alloc = setting.alloc;
    let folder = setting.folder(size, room)?;
    for line in &setting.before {
        let (status, _, _) = run::<C>(alloc, line.as_str(), &folder, usize::MAX)?;
        if status != C::DONE {
            return None;
        }
    }
    let (status, out, err) = run::<C>(alloc, setting.line.as_str(), &folder, room)?;
    Some(Left {
        status,
        out,
        err,
        folder,
    })
}

impl Left {
    /// Appends the status and what was written on both streams.
    pub(crate) fn put(&self, out: &mut Answer) {
        out.great(u64::from(self.status));
        out.put("\n");
        for byte in &self.out {
            out.byte(*byte);
        }
        for byte in &self.err {
            out.byte(*byte);
        }
    }
}
