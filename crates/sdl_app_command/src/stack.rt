//! The stack of the thread that starts the program. The system gives it page by page, and ends the program by a signal where it has no
//! page to give. So what is needed is taken before: the same room is asked of the heap first, where a refusal has an answer.
//! (All of it is this project's own.)
use std::alloc::Global;

/// More bytes than the reading of a file and a run take of that stack.
const OF_A_RUN: usize = 393_216;

/// More bytes than a file takes whose tables are nested as deep as a file can have them.
const OF_A_DEEP_FILE: usize = 4_194_304;

/// With so many full stops and opening brackets in a line at most, tables are not nested so deep that they take more than a run.
const MOST_IN_A_LINE: usize = 8;

/// Takes the stack that the file and its run need. False where the system refuses the room. No memory is held after it. (Where the
/// stack has a limit of its own below that, the system ends the program here, and no line is read.)
pub fn takes_stack(alloc: Global, file: &[u8]) -> bool {
    if is_deep(file) {
        has_room(alloc, OF_A_DEEP_FILE) && touches::<OF_A_DEEP_FILE>(file.len())
    } else {
        has_room(alloc, OF_A_RUN) && touches::<OF_A_RUN>(file.len())
    }
}

/// Whether a table of the file may lie deep in others: each begins behind a full stop or an opening bracket, and at most 80 values lie
/// in one another.
fn is_deep(file: &[u8]) -> bool {
    file.split(|byte| *byte == b'\n').any(|line| line
        .iter()
        .filter(|byte| matches!(**byte, b'.' | b'[' | b'{'))
        .count()
        > MOST_IN_A_LINE)
}

/// Whether there is so much memory at this moment.
fn has_room(alloc: Global, bytes: usize) -> bool {
    Vec::<u8>::with_capacity(alloc, bytes).is_ok()
}

/// Writes to so many bytes of the stack, and is true. The place is one that the compiler does not know, so that it leaves out none.
#[inline(never)]
fn touches<const BYTES: usize>(place: usize) -> bool {
    let mut room = [0u8; BYTES];
    if BYTES == 0 {
        return true;
    }
    room[place % BYTES] = 1;
    room[place / 2 % BYTES] < 2
}
