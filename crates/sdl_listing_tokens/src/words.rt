//! The reserved words of behaviours' texts.
ghost use Rattle.std.specs.Prelude.{◌≡◌};
ghost use Rattle.sdl_listing_tokens.specs.Tokens.{word_text};

/// A word that no name of a text can be. (This project's own.)
#[derive(Clone, Copy, Debug, PartialEq, Eq)]
pub enum Reserved {
    Output,
    Create,
    Next,
    Stop,
    If,
    Then,
    Else,
    Fi,
    To,
    Via,
    Channel,
    And,
    Or,
    Xor,
    Not,
    Modulo,
    Remainder,
    True,
    False,
    Null,
    Env,
    SelfPid,
    Parent,
    Offspring,
    Sender,
    Serial,
}

/// All of them.
pub(crate) const RESERVED: [Reserved; 26] = [
    Reserved::Output,
    Reserved::Create,
    Reserved::Next,
    Reserved::Stop,
    Reserved::If,
    Reserved::Then,
    Reserved::Else,
    Reserved::Fi,
    Reserved::To,
    Reserved::Via,
    Reserved::Channel,
    Reserved::And,
    Reserved::Or,
    Reserved::Xor,
    Reserved::Not,
    Reserved::Modulo,
    Reserved::Remainder,
    Reserved::True,
    Reserved::False,
    Reserved::Null,
    Reserved::Env,
    Reserved::SelfPid,
    Reserved::Parent,
    Reserved::Offspring,
    Reserved::Sender,
    Reserved::Serial,
];

impl Reserved {
    /// The word as a text writes it.
    pub fn text(self) -> &'static str
        ensures { result.now ≡ word_text self }
    {
        match self {
            Reserved::Output => "output",
            Reserved::Create => "create",
            Reserved::Next => "next",
            Reserved::Stop => "stop",
            Reserved::If => "if",
            Reserved::Then => "then",
            Reserved::Else => "else",
            Reserved::Fi => "fi",
            Reserved::To => "to",
            Reserved::Via => "via",
            Reserved::Channel => "channel",
            Reserved::And => "and",
            Reserved::Or => "or",
            Reserved::Xor => "xor",
            Reserved::Not => "not",
            Reserved::Modulo => "mod",
            Reserved::Remainder => "rem",
            Reserved::True => "true",
            Reserved::False => "false",
            Reserved::Null => "null",
            Reserved::Env => "env",
            Reserved::SelfPid => "self",
            Reserved::Parent => "parent",
            Reserved::Offspring => "offspring",
            Reserved::Sender => "sender",
            Reserved::Serial => "serial",
        }
    }
}
