//! Replays that a host asks for.

ghost use Rattle.std.specs.Prelude.{◌≡◌, ◌≢◌, ◌⊎◌, ◌<◌, length, IfErr, IfOk, MatchResult};
ghost use Rattle.module_format.specs.Contents.{Contents};
ghost use Rattle.module_format.specs.Keeping.{Format};
ghost use Rattle.certified_worlds.specs.Certified.{IsCertified};
ghost use Rattle.host_library.specs.Files.{IsCertifiedFile};
ghost use Rattle.host_library.specs.Failures.{Withholds, IsOfEvents, IsNoRefusal};
ghost use Rattle.host_library.specs.Events.{IsNoEvent};
ghost use Rattle.host_library.specs.Replays.{all_out, HasReplayed, IsReportOf, IsHandedOver};

use crate::events::{HostEvent, events_of};
use crate::failure::HostFailure;
use crate::status::{ACCEPTED, TOO_SMALL};
use accepted_runs::{Replay, replay};
use certificate::Module;
use std::alloc::{AllocError, Global};
use verifier::{Verified, not_both, verify};

/// What became of a run, as a host reads it.
#[repr(C)]
#[derive(Clone, Copy)]
pub struct HostReport {
    /// How many instruction bytes were executed.
    pub executed: u64,
    /// How many bytes went out on each link, by its number.
    pub lengths: [usize; 4],
    /// 1 if some process has stopped where the module says that it ends, else 0.
    pub finished: u8,
}

/// A run, and all that went out on its links: one link's bytes after the other's.
#[derive(Drop)]
pub struct HostRun {
    pub report: HostReport,
    pub sent: Vec<u8>,
}

/// What a replay reports.
fn report_of(replay: &Replay) -> HostReport
    ensures { IsReportOf replay.now result }
{
    let out = &replay.out;
    HostReport {
        executed: replay.executed,
        lengths: [out[0].len(), out[1].len(), out[2].len(), out[3].len()],
        finished: u8::from(replay.finished),
    }
}

/// What went out on the links, one link's bytes after the other's.
fn joined(alloc: Global, out: &[Vec<u8>; 4]) -> Result<Vec<u8>, AllocError>
    ensures { IfOk result (λ bytes. bytes.items ≡ all_out out.now) }
{
    let mut bytes = Vec::new(alloc);
    bytes.extend_from_slice(&out[0])?;
    bytes.extend_from_slice(&out[1])?;
    bytes.extend_from_slice(&out[2])?;
    bytes.extend_from_slice(&out[3])?;
    Ok(bytes)
}

/// The run of a certified module over these events, if each of them is an event.
fn replayed_over(
    alloc: Global,
    verified: &Verified,
    events: &[HostEvent],
) -> Result<HostRun, HostFailure>
    ensures { MatchResult result
        (λ run. HasReplayed verified.now events.now run.report (λ sent. run.sent.items ≡ sent))
        (IsOfEvents (IsNoEvent events.now)) }
{
    let events = events_of(alloc, events)?;
    let replayed = replay(alloc, verified, &events)?;
    Ok(HostRun {
        report: report_of(&replayed),
        sent: joined(alloc, &replayed.out)?,
    })
}

/// The run of the module in these bytes over these events, if it is certified and each of them is an event.
pub fn run_of(alloc: Global, bytes: &[u8], events: &[HostEvent]) -> Result<HostRun, HostFailure>
    ensures answer { MatchResult result
        (λ run. IsCertifiedFile bytes.now (λ m. HasReplayed m events.now run.report (λ sent. run.sent.items ≡ sent)))
        (Withholds bytes.now (λ index. IsCertifiedFile bytes.now (λ m. IsNoEvent events.now index))) }
    ensures certified { (m : Contents) → Format bytes.now m → IsCertified m → IfErr result IsNoRefusal }
{
    not_both();
    let module = Module::read(alloc, bytes)?;
    let verified = verify(alloc, &module)?;
    replayed_over(alloc, &verified, events)
}

/// Writes what was sent into the caller's buffer, if it is long enough, and gives the status.
pub fn hand_over(sent: &[u8], out: &mut [u8]) -> u8
    ensures statuses { (result ≡ ACCEPTED) ⊎ (result ≡ TOO_SMALL) }
    ensures accepted { result ≡ ACCEPTED → IsHandedOver out.old out.new sent.now }
    ensures too_small { result ≡ TOO_SMALL → length out.old < length sent.now }
    ensures same { result ≢ ACCEPTED → out.new ≡ out.old }
{
    if sent.len() > out.len() {
        return TOO_SMALL;
    }
    out[..sent.len()].copy_from_slice(sent);
    ACCEPTED
}
