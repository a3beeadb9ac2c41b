//! The program's exit statuses.

/// The status of a whole run.
pub const WHOLE: u8 = 0;

/// The status of a refusal before a run.
pub const REFUSED: u8 = 1;

/// The status of wrong arguments.
pub const WRONG_ARGUMENTS: u8 = 2;

/// The status of a run that did not end quietly, or whose input or output had a fault.
pub const FAULTY: u8 = 3;
