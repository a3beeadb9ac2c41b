//! Sources of lines over readers that give a few bytes at a time, are interrupted, break off within a line, or fail once.
use crate::fakes::{Reading, reader_of};
use crate::names::some_names;
use sdl_signal::{EnvRead, EnvReader, InputEnd, LineRead, LineSource, Names, Value};
use std::alloc::{AllocError, Global};
use std::io::ErrorKind;
use std::process::Abort;
use std::test::Fail;

/// Errors of a reader that are no interruptions.
static FAILURES: [ErrorKind; 4] = [
    ErrorKind::Other,
    ErrorKind::WouldBlock,
    ErrorKind::TimedOut,
    ErrorKind::UnexpectedEof,
];

/// What a source is to answer.
#[derive(Clone, Copy)]
enum Want {
    Line(&'static [u8]),
    /// A line of so many letters a.
    Letters(usize),
    Over,
    Done,
    Fault,
}

fn is_wanted(read: LineRead, want: Want) -> bool {
    match (read, want) {
        (LineRead::Line(line), Want::Line(bytes)) => line.as_slice() == bytes,
        (LineRead::Line(line), Want::Letters(count)) => {
            line.len() == count && line.iter().all(|byte| *byte == b'a')
        }
        (LineRead::Over, Want::Over) => true,
        (LineRead::Done, Want::Done) => true,
        (LineRead::Fault, Want::Fault) => true,
        _ => false,
    }
}

/// How often a source is asked, what it answers each time, and how often the reader was asked by then, where that is looked at.
type Asked = (u32, Want, Option<u32>);

/// A reader that gives the text, a few bytes at once, and then fails or ends; and what a source over it answers. What the reader would
/// give behind that is never read.
#[derive(Clone, Copy)]
struct Case<'a> {
    text: &'a [u8],
    fails: bool,
    behind: &'a [u8],
    most: usize,
    waits: u32,
    answers: &'static [Asked],
}

const EMPTY: Case = Case {
    text: b"",
    fails: false,
    behind: b"",
    most: 7,
    waits: 0,
    answers: &[(1, Want::Done, None)],
};

const THREE: &[Asked] = &[
    (1, Want::Line(b"one"), None),
    (1, Want::Line(b""), None),
    (1, Want::Line(b"two"), None),
    (1, Want::Done, None),
];

static CASES: [Case; 10] = [
    EMPTY,
    Case {
        text: b"one\n\ntwo",
        answers: THREE,
        ..EMPTY
    },
    Case {
        text: b"one\n\ntwo\n",
        answers: THREE,
        ..EMPTY
    },
    Case {
        text: b"one\ntwo",
        fails: true,
        answers: &[(1, Want::Line(b"one"), None), (1, Want::Fault, None)],
        ..EMPTY
    },
    // A thousand interrupted reads are tried again.
    Case {
        text: b"one\n",
        waits: 1_000,
        answers: &[(1, Want::Line(b"one"), None), (1, Want::Done, None)],
        ..EMPTY
    },
    Case {
        text: b"one\n",
        waits: 1_001,
        answers: &[(1, Want::Fault, None)],
        ..EMPTY
    },
    // A source answers its end for ever.
    Case {
        text: b"last",
        behind: b"more\n",
        most: 100,
        answers: &[(1, Want::Line(b"last"), None), (2, Want::Done, Some(2))],
        ..EMPTY
    },
    // It stays at a fault where the reader goes on.
    Case {
        text: b"one\ntwo\nthr",
        fails: true,
        behind: b"ee\nfour\n",
        most: 100,
        answers: &[
            (1, Want::Line(b"one"), None),
            (1, Want::Line(b"two"), None),
            (4, Want::Fault, Some(2)),
        ],
        ..EMPTY
    },
    // It fails where nothing was read.
    Case {
        fails: true,
        behind: b"\nline\n",
        answers: &[(2, Want::Fault, Some(1))],
        ..EMPTY
    },
    // A reader is asked no more where a line is whole.
    Case {
        text: b"one\ntwo\n",
        fails: true,
        most: 100,
        answers: &[
            (1, Want::Line(b"one"), None),
            (1, Want::Line(b"two"), Some(1)),
            (1, Want::Fault, None),
        ],
        ..EMPTY
    },
];

/// The source answers this.
fn answers(rt: &impl Abort, source: &mut LineSource, input: &mut Reading, asked: &Asked) {
    for _ in 0..asked.0 {
        assert!(rt; is_wanted(source.next(input), asked.1));
    }
    if let Some(count) = asked.2 {
        assert!(rt; input.asked == count);
    }
}

/// A source over the reader of the case, which fails so, answers what is wanted.
fn is_met(rt: &impl Abort, case: &Case, kind: ErrorKind) {
    let mut input = Reading {
        before: case.text,
        failure: if case.fails { Some(kind) } else { None },
        ends: !case.fails,
        after: case.behind,
        most: case.most,
        waits: case.waits,
        each: 0,
        asked: 0,
    };
    let mut source = LineSource::new();
    for asked in case.answers {
        answers(rt, &mut source, &mut input, asked);
    }
    assert!(rt; input.after.len() == case.behind.len());
}

#[test]
fn a_source_gives_each_line_and_then_its_end(rt: HostRuntime) {
    for kind in FAILURES.iter() {
        for case in CASES.iter() {
            is_met(&rt, case, *kind);
        }
    }
}

static WHOLE: [Asked; 2] = [(1, Want::Letters(320), None), (1, Want::Done, None)];

static TOO_LONG: [Asked; 1] = [(2, Want::Over, None)];

/// The reader is asked no more.
static ASKED_ONCE: [Asked; 1] = [(2, Want::Over, Some(1))];

/// A source that reads so many letters a, so many at once, before the reader fails or ends, answers this.
fn letters_are_met(rt: &impl Abort, letters: &[u8], most: usize, answers: &'static [Asked]) {
    for fails in [false, true] {
        let case = Case {
            text: letters,
            fails,
            behind: b"\nline\n",
            most,
            waits: 0,
            answers,
        };
        is_met(rt, &case, ErrorKind::Other);
    }
}

#[test]
fn a_source_gives_lines_of_320_bytes_and_no_longer_ones(rt: HostRuntime) {
    let long = [b'a'; 4_095];
    letters_are_met(&rt, &long[..321], 7, &TOO_LONG);
    for length in [321usize, 322, 4_095] {
        letters_are_met(&rt, &long[..length], 5_000, &ASKED_ONCE);
    }
    let whole = Case {
        text: &long[..320],
        answers: &WHOLE,
        ..EMPTY
    };
    is_met(&rt, &whole, ErrorKind::Other);
}

/// Whether the line carries the integer.
fn carries(read: EnvRead, want: i64) -> bool {
    match read {
        EnvRead::Line(line) => line.signal.params.as_slice() == [Value::Integer(want)].as_slice(),
        EnvRead::Ended(_) => false,
    }
}

fn environment_stays(rt: &impl Abort, names: &Names, kind: ErrorKind) {
    let mut input = Reading {
        failure: Some(kind),
        after: b"\nline ping 4\n",
        ..reader_of(b"line ping 1\nline ping 2\nline ping 3")
    };
    let mut reader = EnvReader::new();
    assert!(rt; carries(reader.next(names, &mut input), 1));
    assert!(rt; carries(reader.next(names, &mut input), 2));
    for _ in 0..3 {
        assert!(rt; reader.next(names, &mut input) == EnvRead::Ended(InputEnd::ReadFault));
    }
}

#[test]
fn a_line_that_is_cut_off_by_a_fault_is_not_carried_out(rt: HostRuntime) -> Result<(), Fail> {
    let names = some_names(rt.alloc())?;
    for kind in FAILURES.iter() {
        environment_stays(&rt, &names, *kind);
    }
    Ok(())
}

/// Reads as many lines, with interruptions before each.
fn read_interrupted(
    rt: &impl Abort,
    alloc: Global,
    source: &mut LineSource,
    lines: usize,
    each: u32,
) -> Result<(), AllocError> {
    let text = b"ok\n".repeat(alloc, lines)?;
    let mut input = Reading {
        most: 3,
        waits: each,
        each,
        ..reader_of(text.as_slice())
    };
    for _ in 0..lines {
        assert!(rt; is_wanted(source.next(&mut input), Want::Line(b"ok")));
    }
    Ok(())
}

#[test]
fn interrupted_reads_are_counted_over_the_life_of_a_source(rt: HostRuntime) -> Result<(), Fail> {
    for (lines, each) in [(100, 10), (10, 100), (1_000, 1), (1, 1_000)] {
        let mut source = LineSource::new();
        read_interrupted(&rt, rt.alloc(), &mut source, lines, each)?;
        read_interrupted(&rt, rt.alloc(), &mut source, 50, 0)?;
        let mut input = Reading {
            waits: 1,
            ..reader_of(b"ok\n")
        };
        assert!(rt; source.next(&mut input) == LineRead::Fault);
        assert!(rt; source.next(&mut input) == LineRead::Fault);
    }
    // another source counts from 0
    for _ in 0..3 {
        read_interrupted(&rt, rt.alloc(), &mut LineSource::new(), 100, 10)?;
    }
    Ok(())
}
