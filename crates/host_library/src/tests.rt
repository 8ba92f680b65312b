//! That each status is given: the clauses would let a call always say that memory ran out. What else a call writes, they
//! say, and `scripts/hosts` tries.

ghost use Rattle.std.specs.Prelude.{◌≤◌};

use crate::effects::{EMITTED, HostEffect, HostProgress, HostState, IDLE, RAN};
use crate::events::{ACKNOWLEDGE, ARRIVE, HostEvent, STEP};
use crate::replaying::HostReport;
use crate::status::{ACCEPTED, NO_EVENT, NO_MODULE, NOT_CERTIFIED, NOT_LOADED, TOO_SMALL};
use crate::{tpm_free, tpm_load, tpm_look, tpm_message, tpm_replay, tpm_run, tpm_step, tpm_verify};
use kept_runs::HostMachine;
use std::alloc::Global;

/// `ldc 5`, `stl 1`, `ldl 1`, `adc 1`, `stl 1`, `stopp`, with a budget of 7.
const STRAIGHT: [u8; 83] = [
    0x54, 0x50, 0x4d, 0x31, 7, 0, 0, 0, 0, 0, 0, 0, 5, 0, 0, 0, 3, 0, 0, 0, 7, 0, 0, 0, 0, 0, 0, 0,
    7, 0, 0, 0, 0, 0, 0, 0, 0, 0, 0, 0, 0, 0, 0, 0, 0, 0, 0, 0, 0, 0, 0, 0, 0, 0, 0, 0, 0, 0, 0, 0,
    0, 0, 0, 0, 0, 0, 0, 0, 0, 0, 0, 0, 0, 0, 0, 0, 0x45, 0xd1, 0x71, 0x81, 0xd1, 0x21, 0xf5,
];

/// The same with a budget of 6.
const UNPAID: [u8; 83] = [
    0x54, 0x50, 0x4d, 0x31, 7, 0, 0, 0, 0, 0, 0, 0, 5, 0, 0, 0, 3, 0, 0, 0, 6, 0, 0, 0, 0, 0, 0, 0,
    7, 0, 0, 0, 0, 0, 0, 0, 0, 0, 0, 0, 0, 0, 0, 0, 0, 0, 0, 0, 0, 0, 0, 0, 0, 0, 0, 0, 0, 0, 0, 0,
    0, 0, 0, 0, 0, 0, 0, 0, 0, 0, 0, 0, 0, 0, 0, 0, 0x45, 0xd1, 0x71, 0x81, 0xd1, 0x21, 0xf5,
];

/// One byte from input link 0 to output link 0, by 15 bytes of code.
const COPY: [u8; 91] = [
    0x54, 0x50, 0x4d, 0x31, 0x0f, 0, 0, 0, 0, 0, 0, 0, 5, 0, 0, 0, 3, 0, 0, 0, 0x0f, 0, 0, 0, 0, 0,
    0, 0, 0x0f, 0, 0, 0, 1, 0, 0, 0, 0, 0, 0, 0, 0, 0, 0, 0, 0, 0, 0, 0, 1, 0, 0, 0, 0, 0, 0, 0, 0,
    0, 0, 0, 0, 0, 0, 0, 0, 0, 0, 0, 0, 0, 0, 0, 0, 0, 0, 0, 0x40, 0xd1, 0x11, 0x24, 0xf2, 0x54,
    0x41, 0xf7, 0x11, 0x24, 0xf2, 0x41, 0xfb, 0x21, 0xf5,
];

/// One byte of the running process.
const STEPS: HostEvent = HostEvent {
    kind: STEP,
    link: 0,
    byte: 0,
    slice: 0,
    pick: 0,
};

/// The byte comes for which `COPY` waits after 8 bytes.
const COMES: HostEvent = HostEvent {
    kind: ARRIVE,
    link: 0,
    byte: 0x41,
    slice: 0,
    pick: 0,
};

/// The byte is taken that `COPY` sends, which waits after 13 bytes.
const TAKEN: HostEvent = HostEvent {
    kind: ACKNOWLEDGE,
    link: 0,
    byte: 0,
    slice: 0,
    pick: 0,
};

/// A byte comes on a link that there is not.
const NONE: HostEvent = HostEvent {
    kind: ARRIVE,
    link: 4,
    byte: 0x41,
    slice: 0,
    pick: 0,
};

/// `COPY` runs to its end.
const EVENTS: [HostEvent; 17] = [
    STEPS, STEPS, STEPS, STEPS, STEPS, STEPS, STEPS, STEPS, COMES, STEPS, STEPS, STEPS, STEPS,
    STEPS, TAKEN, STEPS, STEPS,
];

/// The status of a verdict.
fn verdict(alloc: Global, bytes: &[u8]) -> u8 {
    let (mut budget, mut number, mut offset) = (0, 0, 0);
    tpm_verify(alloc, bytes, &mut budget, &mut number, &mut offset)
}

/// The status of a replay, with a buffer of this many bytes.
fn replayed(alloc: Global, bytes: &[u8], events: &[HostEvent], capacity: usize) -> u8
    requires { capacity ≤ 1 }
{
    let mut report = HostReport {
        executed: 0,
        lengths: [0; 4],
        finished: 0,
    };
    let (mut number, mut offset) = (0, 0);
    let mut out = [0];
    tpm_replay(
        alloc,
        bytes,
        events,
        &mut out[..capacity],
        &mut report,
        &mut number,
        &mut offset,
    )
}

#[test]
fn each_status_is_given(rt: HostRuntime) {
    let alloc = rt.alloc();
    let given = [
        verdict(alloc, &STRAIGHT),
        verdict(alloc, &STRAIGHT[..82]),
        verdict(alloc, &UNPAID),
        replayed(alloc, &COPY, &EVENTS, 1),
        replayed(alloc, &COPY, &EVENTS, 0),
        replayed(alloc, &COPY, &[NONE], 1),
        replayed(alloc, &UNPAID, &EVENTS, 1),
    ];
    assert_eq!(rt;
        given,
        [
            ACCEPTED,
            NO_MODULE,
            NOT_CERTIFIED,
            ACCEPTED,
            TOO_SMALL,
            NO_EVENT,
            NOT_CERTIFIED
        ]
    );
}

/// The status of loading a module.
fn loaded(alloc: Global, bytes: &[u8], machine: &mut HostMachine) -> u8 {
    let (mut number, mut offset) = (0, 0);
    tpm_load(alloc, bytes, machine, &mut number, &mut offset)
}

/// The status of an event.
fn stepped(alloc: Global, machine: &mut HostMachine, event: &HostEvent) -> u8 {
    let mut effect = HostEffect { kind: 0, link: 0 };
    tpm_step(alloc, machine, event, &mut effect)
}

/// How far a machine goes by itself, with at most so many bytes: how many they are, and why it stops.
fn ran(alloc: Global, machine: &mut HostMachine, limit: u64) -> (u64, u8) {
    let mut progress = HostProgress {
        executed: 0,
        kind: 0,
        link: 0,
    };
    tpm_run(alloc, machine, limit, &mut progress);
    (progress.executed, progress.kind)
}

/// The status of the message that was sent last, with a buffer of so many bytes.
fn told(alloc: Global, machine: &mut HostMachine, capacity: usize) -> u8
    requires { capacity ≤ 1 }
{
    let mut out = [0];
    tpm_message(alloc, machine, &mut out[..capacity])
}

/// The status of a question.
fn looked(alloc: Global, machine: &mut HostMachine) -> u8 {
    let mut state = HostState {
        executed: 0,
        message: 0,
        is_running: 0,
        is_finished: 0,
        wants: [0; 4],
    };
    tpm_look(alloc, machine, &mut state)
}

#[test]
fn each_status_of_a_machine_is_given(rt: HostRuntime) {
    let alloc = rt.alloc();
    let mut machine = HostMachine::empty(alloc);
    let before = [
        looked(alloc, &mut machine),
        stepped(alloc, &mut machine, &STEPS),
        told(alloc, &mut machine, 1),
        loaded(alloc, &COPY[..90], &mut machine),
        loaded(alloc, &UNPAID, &mut machine),
        loaded(alloc, &COPY, &mut machine),
        stepped(alloc, &mut machine, &NONE),
    ];
    let runs = [
        ran(alloc, &mut machine, 5),
        ran(alloc, &mut machine, 5),
        ran(alloc, &mut machine, 5),
    ];
    let during = [
        stepped(alloc, &mut machine, &COMES),
        looked(alloc, &mut machine),
    ];
    let sent = ran(alloc, &mut machine, 100);
    let after = [
        told(alloc, &mut machine, 0),
        told(alloc, &mut machine, 1),
        stepped(alloc, &mut machine, &TAKEN),
    ];
    tpm_free(alloc, &mut machine);
    assert_eq!(rt;
        before,
        [
            NOT_LOADED,
            NOT_LOADED,
            NOT_LOADED,
            NO_MODULE,
            NOT_CERTIFIED,
            ACCEPTED,
            NO_EVENT
        ]
    );
    assert_eq!(rt; runs, [(8, RAN), (0, IDLE), (0, IDLE)]);
    assert_eq!(rt; during, [ACCEPTED, ACCEPTED]);
    assert_eq!(rt; sent, (5, EMITTED));
    assert_eq!(rt; after, [TOO_SMALL, ACCEPTED, ACCEPTED]);
    assert_eq!(rt; looked(alloc, &mut machine), NOT_LOADED);
}
