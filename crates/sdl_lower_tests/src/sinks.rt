//! Sinks of lines over writers that take a few bytes at a time, are interrupted, or fail once.
use crate::fakes::{Writing, writer_of};
use sdl_signal::{LineSink, Written, write_line};
use std::io::ErrorKind;
use std::process::Abort;

/// What a writer answers once: an error that is no interruption, or, where none is given, that it took
/// nothing.
static FAILURES: [Option<ErrorKind>; 4] = [
    None,
    Some(ErrorKind::Other),
    Some(ErrorKind::WouldBlock),
    Some(ErrorKind::BrokenPipe),
];

/// A line alone says this, and these bytes went out.
fn goes_out(rt: &impl Abort, mut output: Writing, line: &[u8], wanted: Written, bytes: &[u8]) {
    assert!(rt; write_line(&mut output, line) == wanted);
    assert!(rt; output.taken.as_slice() == bytes);
}

#[test]
fn a_line_stops_where_the_writer_fails_once(rt: HostRuntime) {
    for failure in FAILURES.iter() {
        for most in [9, 3] {
            for place in 0..5 {
                let output = Writing {
                    place,
                    failure: *failure,
                    most,
                    ..writer_of(rt.alloc())
                };
                goes_out(
                    &rt,
                    output,
                    b"line",
                    Written::Fault(place),
                    &b"line\n"[..place],
                );
            }
        }
    }
}

/// How many bytes a writer takes at once, its place of a failure, its interruptions before the first write and between others, a
/// line, and what comes of it.
static LINES: [(usize, usize, u32, u32, &[u8], Written, &[u8]); 5] = [
    (3, 64, 0, 0, b"line", Written::Whole, b"line\n"),
    (3, 5, 0, 0, b"line", Written::Whole, b"line\n"),
    (3, 64, 1_000, 0, b"line", Written::Whole, b"line\n"),
    (3, 64, 1_001, 0, b"line", Written::Fault(0), b""),
    // one interruption too many stops within a line
    (1, 64, 300, 300, b"nine more", Written::Fault(3), b"nin"),
];

#[test]
fn a_sink_says_how_much_went_out(rt: HostRuntime) {
    for (most, place, waits, each, line, wanted, bytes) in LINES.iter() {
        let output = Writing {
            place: *place,
            most: *most,
            waits: *waits,
            each: *each,
            ..writer_of(rt.alloc())
        };
        goes_out(&rt, output, line, *wanted, bytes);
    }
}

/// A line that is written so often: the interruptions before the first write and between others, what each writing says, and how many
/// bytes were taken by then.
#[derive(Clone, Copy)]
struct Lines<'a> {
    times: u32,
    waits: u32,
    each: u32,
    line: &'a [u8],
    wanted: Written,
    taken: usize,
}

const ONE: Lines = Lines {
    times: 1,
    waits: 0,
    each: 0,
    line: b"one",
    wanted: Written::Whole,
    taken: 4,
};

const NINE: Lines = Lines {
    line: b"nine more",
    ..ONE
};

/// Ten, one and a hundred lines, with as many interruptions as a sink bears, and five without one.
const TEN: &[Lines] = &[
    Lines {
        times: 10,
        waits: 10,
        each: 10,
        taken: 100,
        ..NINE
    },
    Lines {
        times: 5,
        taken: 150,
        ..NINE
    },
    Lines {
        waits: 1,
        wanted: Written::Fault(0),
        taken: 150,
        ..NINE
    },
];

const LONE: &[Lines] = &[
    Lines {
        waits: 100,
        each: 100,
        taken: 10,
        ..NINE
    },
    Lines {
        times: 5,
        taken: 60,
        ..NINE
    },
    Lines {
        waits: 1,
        wanted: Written::Fault(0),
        taken: 60,
        ..NINE
    },
];

const HUNDRED: &[Lines] = &[
    Lines {
        times: 100,
        waits: 1,
        each: 1,
        taken: 1_000,
        ..NINE
    },
    Lines {
        times: 5,
        taken: 1_050,
        ..NINE
    },
    Lines {
        waits: 1,
        wanted: Written::Fault(0),
        taken: 1_050,
        ..NINE
    },
];

/// What was written before a fault stands, and the next line is written behind it.
const FAILING: &[Lines] = &[
    ONE,
    Lines {
        line: b"two",
        wanted: Written::Fault(2),
        taken: 6,
        ..ONE
    },
    Lines {
        line: b"six",
        taken: 10,
        ..ONE
    },
];

/// Interruptions are counted before each line.
const WAITING: &[Lines] = &[
    Lines { waits: 600, ..ONE },
    Lines {
        waits: 400,
        line: b"two",
        taken: 8,
        ..ONE
    },
    Lines {
        waits: 1,
        line: b"six",
        wanted: Written::Fault(0),
        taken: 8,
        ..ONE
    },
];

/// How many bytes a writer takes at once, its place of a failure, lines, and with what begins what it took.
static RUNS: [(usize, usize, &[Lines], &[u8]); 5] = [
    (64, 6, FAILING, b"one\ntwsix\n"),
    (64, 2_000, WAITING, b"one\ntwo\n"),
    (1, 2_000, TEN, b"nine more\nnine more\n"),
    (1, 2_000, LONE, b"nine more\nnine more\n"),
    (1, 2_000, HUNDRED, b"nine more\nnine more\n"),
];

/// The writing of these lines says what is wanted.
fn goes_on(rt: &impl Abort, output: &mut Writing, sink: &mut LineSink, lines: &Lines) {
    output.waits = lines.waits;
    output.each = lines.each;
    for _ in 0..lines.times {
        assert!(rt; sink.write(output, lines.line) == lines.wanted);
    }
    assert!(rt; output.taken.len() == lines.taken);
}

/// A sink writes one after the other. It counts interruptions over its life.
fn all_go_on(rt: &impl Abort, mut output: Writing, lines: &[Lines], bytes: &[u8]) {
    let mut sink = LineSink::new();
    for some in lines {
        goes_on(rt, &mut output, &mut sink, some);
    }
    assert!(rt; output.taken.as_slice().starts_with(bytes));
    assert!(rt; output.taken.as_slice().last() == Some(&b'\n'));
}

#[test]
fn a_sink_goes_on_after_faults_and_interruptions(rt: HostRuntime) {
    for failure in FAILURES.iter() {
        for (most, place, lines, bytes) in RUNS.iter() {
            let output = Writing {
                place: *place,
                failure: *failure,
                most: *most,
                ..writer_of(rt.alloc())
            };
            all_go_on(&rt, output, lines, bytes);
        }
    }
}

#[test]
fn a_sink_takes_lines_of_any_length(rt: HostRuntime) {
    let line = [b'a'; 600];
    for length in [254usize, 255, 256, 257, 600] {
        let output = Writing {
            most: 100,
            ..writer_of(rt.alloc())
        };
        let lines = Lines {
            line: &line[..length],
            taken: length + 1,
            ..ONE
        };
        all_go_on(&rt, output, &[lines], &line[..length]);
    }
}
