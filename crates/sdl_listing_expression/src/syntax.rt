//! What an expression of a behaviour's text is, once its names are looked up. (This project's own.)
use sdl_signal::{SetId, Sort};

/// A Pid that an instance knows (Z.101, the Pid expressions SELF, PARENT, OFFSPRING and SENDER).
#[derive(Clone, Copy, Debug, PartialEq, Eq)]
pub enum Word {
    SelfPid,
    Parent,
    Offspring,
    Sender,
}

/// What combines two values. A text's `a > b` is `b < a`, and its `a >= b` is `b <= a`.
#[derive(Clone, Copy, Debug, PartialEq, Eq)]
pub enum Operator {
    Add,
    Subtract,
    Multiply,
    Divide,
    Modulo,
    Remainder,
    /// Of two values of one sort, whichever it is.
    Equal,
    /// Of two values of one sort, whichever it is.
    Differs,
    Less,
    AtMost,
    /// The second part counts only where the first is true.
    And,
    /// The second part counts only where the first is false.
    Or,
    Xor,
}

/// An expression, by the places of what it names. A parameter is one of the signal consumed, and a variable one of the
/// instance's, each by its place from 0 and its sort.
#[derive(Drop)]
pub enum Expr {
    Integer(i64),
    Boolean(bool),
    Null,
    Env,
    Own(Word),
    Parameter(usize, Sort),
    Variable(usize, Sort),
    Negated(Box<Expr>),
    Not(Box<Expr>),
    /// The serial number of an instance, and 0 of no instance.
    Serial(Box<Expr>),
    /// The instance of the set with the serial number, and null where no instance has that number.
    Instance(SetId, Box<Expr>),
    Two(Operator, Box<Expr>, Box<Expr>),
    /// The second where the first is true, and else the third.
    Choice(Box<Expr>, Box<Expr>, Box<Expr>),
}
