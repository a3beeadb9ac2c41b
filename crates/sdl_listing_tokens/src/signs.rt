//! The signs of behaviours' texts.
ghost use Rattle.std.specs.Prelude.{◌≡◌};
ghost use Rattle.sdl_listing_tokens.specs.Tokens.{sign_text};

/// A sign. (This project's own.)
#[derive(Clone, Copy, Debug, PartialEq, Eq)]
pub enum Sign {
    Becomes,
    Differs,
    AtMost,
    AtLeast,
    Minus,
    Plus,
    Times,
    Slash,
    Equal,
    Less,
    Greater,
    Open,
    Close,
    OpenBrace,
    CloseBrace,
    Comma,
    Semicolon,
    Colon,
}

/// All of them: of two that begin alike, the longer first.
pub(crate) const SIGNS: [Sign; 18] = [
    Sign::Becomes,
    Sign::Differs,
    Sign::AtMost,
    Sign::AtLeast,
    Sign::Minus,
    Sign::Plus,
    Sign::Times,
    Sign::Slash,
    Sign::Equal,
    Sign::Less,
    Sign::Greater,
    Sign::Open,
    Sign::Close,
    Sign::OpenBrace,
    Sign::CloseBrace,
    Sign::Comma,
    Sign::Semicolon,
    Sign::Colon,
];

impl Sign {
    /// The sign as a text writes it.
    pub fn text(self) -> &'static str
        ensures { result.now ≡ sign_text self }
    {
        match self {
            Sign::Becomes => ":=",
            Sign::Differs => "/=",
            Sign::AtMost => "<=",
            Sign::AtLeast => ">=",
            Sign::Minus => "-",
            Sign::Plus => "+",
            Sign::Times => "*",
            Sign::Slash => "/",
            Sign::Equal => "=",
            Sign::Less => "<",
            Sign::Greater => ">",
            Sign::Open => "(",
            Sign::Close => ")",
            Sign::OpenBrace => "{",
            Sign::CloseBrace => "}",
            Sign::Comma => ",",
            Sign::Semicolon => ";",
            Sign::Colon => ":",
        }
    }
}
