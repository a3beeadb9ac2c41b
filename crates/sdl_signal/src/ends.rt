//! How the reading of an input, and the writing of an output, ended.
use crate::reading::LineFault;

/// How the reading of an input ended. (This project's own.)
#[derive(Clone, Copy, Debug, PartialEq, Eq)]
pub enum InputEnd {
    /// All lines were carried out.
    Whole,
    /// The line of this number, counted from 1, has a fault, and those before it were carried out.
    BadLine(u32, LineFault),
    /// The reader failed. The whole lines before the failure were carried out.
    ReadFault,
    /// 16,384 lines were carried out, and a further line followed.
    TooMuch,
    /// The run stopped when this many lines had been carried out.
    Stopped(u32),
}

/// How the writing of an output ended. (This project's own.)
#[derive(Clone, Copy, Debug, PartialEq, Eq)]
pub enum OutputEnd {
    Whole,
    /// The writer failed or took no byte.
    WriteFault,
}
