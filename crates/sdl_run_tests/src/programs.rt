//! Runs of Echo as a graph, with their statuses.
use super::echo_graph::{ABSENT, DESIGN, FILLED, MENDED, MUTE, SOUND};
use super::running::{How, prepare_text, run_design};
use sdl_examples::ECHO;
use sdl_graph_program::BROKEN;
use std::alloc::Global;
use std::sync::Wait;
use std::thread::Threads;

const PINGS: &[u8] = b"line ping 7\nline ping -1\n";

const PONGS: &[u8] = b"line pong 7\nline pong -1\n";

const BOOKS: &[u8] = b"line pong 7
line pong -1
ledger output 4 noroute 0 entered 4 noinstance 0 gone 0 left 0
ledger entered 4 fired 2 implicit 0 stopped 0 waiting 0 environment 2
B start E:1
B enter ping E:1
B fire ping E:1
B sent pong 1
B enter ping E:1
B fire ping E:1
B sent pong 1
";

/// Which Echo is run on which lines, with the ledger and the trace or without, and what comes of it.
#[derive(Clone, Copy)]
struct Trial {
    start: u32,
    books: bool,
    lines: &'static [u8],
    status: u8,
    output: &'static [u8],
    errors: &'static [u8],
}

const WHOLE: Trial = Trial {
    start: SOUND,
    books: true,
    lines: PINGS,
    status: 0,
    output: BOOKS,
    errors: b"",
};

static TRIALS: [Trial; 7] = [
    WHOLE,
    // A row that is put together in place answers as one that is built.
    Trial {
        start: FILLED,
        ..WHOLE
    },
    Trial {
        start: FILLED,
        books: false,
        output: PONGS,
        ..WHOLE
    },
    // Where that breaks its offer, the built one answers.
    Trial {
        start: MENDED,
        ..WHOLE
    },
    // The answers that break their offer do nothing. The run goes on, and its status and two lines say so.
    Trial {
        start: MUTE,
        books: false,
        lines: PINGS,
        status: BROKEN,
        output: b"",
        errors: b"broken offer transition 3 answers 2\ntransition 3 in state 0 on ping: its offer has no output pong via any\n",
    },
    // A broken offer is told after a fault of the input.
    Trial {
        start: MUTE,
        books: false,
        lines: b"line ping 7\nline\n",
        status: 4,
        output: b"",
        errors: b"input line 2: L3 Missing\nbroken offer transition 3 answers 1\ntransition 3 in state 0 on ping: its offer has no output pong via any\n",
    },
    // A number without an offer is not stored, and nothing is run.
    Trial {
        start: ABSENT,
        books: false,
        lines: PINGS,
        status: 1,
        output: b"",
        errors: b"G1 NoOffer transition 8\n",
    },
];

/// Whether a run comes to what the trial says, on one thread or in threads.
fn is_met<T: Threads + Wait + Sync>(rt: &T, alloc: Global, trial: &Trial, serial: bool) -> bool {
    let how = How {
        serial,
        ledger: trial.books,
        trace: trial.books,
    };
    match prepare_text(alloc, ECHO, how) {
        Ok(prepared) => {
            let ran = run_design(rt, prepared, &DESIGN, trial.start, 2, trial.lines);
            ran.status == trial.status
                && ran.output.as_slice() == trial.output
                && ran.errors.as_slice() == trial.errors
        }
        Err(_) => false,
    }
}

/// In threads a trace may have another order.
#[test]
fn an_echo_runs_as_it_offers(rt: HostRuntime) {
    for trial in TRIALS.iter() {
        assert!(rt; is_met(&rt, rt.alloc(), trial, true));
        assert!(rt; trial.books || is_met(&rt, rt.alloc(), trial, false));
    }
}
