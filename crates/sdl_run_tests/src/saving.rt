//! Runs of a graph one of whose states saves.
use super::office::{DESIGN, OFFICE, START, TRANSITIONS};
use super::running::{How, prepare_text, run_design};
use std::test::Fail;

/// The desk lets 1 through, and closes with 2 and 3 in its port: these count as stopped.
const CLOSED: &[u8] = b"line open\nline put 1\nline put 2\nline go\nline put 3\nline close\n";

const CLOSED_LEDGER: &[u8] = b"line out 1
ledger output 12 noroute 0 entered 12 noinstance 0 gone 0 left 0
ledger entered 12 fired 9 implicit 0 stopped 2 waiting 0 environment 1
";

/// What is put on a desk that nothing starts waits there.
const WAITING: &[u8] = b"line open\nline put 1\nline put 2\n";

const WAITING_LEDGER: &[u8] = b"ledger output 5 noroute 0 entered 5 noinstance 0 gone 0 left 0
ledger entered 5 fired 3 implicit 0 stopped 0 waiting 2 environment 0
";

/// Each `go` lets the first of what waits through.
const ONE_BY_ONE: &[u8] =
    b"line open\nline put 1\nline put 2\nline put 3\nline go\nline go\nline put 4\n";

const ONE_BY_ONE_LEDGER: &[u8] = b"line out 1
line out 2
ledger output 15 noroute 0 entered 15 noinstance 0 gone 0 left 0
ledger entered 15 fired 11 implicit 0 stopped 0 waiting 2 environment 2
";

/// Each input with what a run writes, in threads and on one thread.
static TRIALS: [(&[u8], &[u8]); 3] = [
    (CLOSED, CLOSED_LEDGER),
    (WAITING, WAITING_LEDGER),
    (ONE_BY_ONE, ONE_BY_ONE_LEDGER),
];

#[test]
fn a_desk_saves_what_is_put_on_it(rt: HostRuntime) -> Result<(), Fail> {
    for (lines, wanted) in TRIALS.iter() {
        for serial in [true, false] {
            let how = How {
                serial,
                ledger: true,
                trace: false,
            };
            match prepare_text(rt.alloc(), OFFICE, how) {
                Ok(prepared) => {
                    let ran = run_design(&rt, prepared, &DESIGN, START, TRANSITIONS, *lines);
                    assert!(rt; ran.status == 0 && ran.errors.is_empty());
                    assert!(rt; ran.output.as_slice() == *wanted);
                }
                Err(_) => assert!(rt; false),
            }
        }
    }
    Ok(())
}
