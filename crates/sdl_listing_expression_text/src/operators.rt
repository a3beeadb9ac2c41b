//! The operators between two operands.
ghost use Rattle.std.specs.Prelude.{◌≡◌, Some, false, true};
ghost use Rattle.sdl_listing_expression_text.specs.Built.{sort_wanted};
ghost use Rattle.sdl_listing_expression_text.specs.Spelling.{infix_of_sign, infix_of_word, infix_of};

use sdl_listing_expression::Operator;
use sdl_listing_tokens::{Kind, Reserved, Sign};
use sdl_signal::Sort;

/// The level of the operators that bind least: `or` and `xor`. Then come `and`, comparisons, sums and products.
pub const LOOSEST: usize = 0;

/// The level of comparisons.
pub const COMPARISONS: usize = 2;

/// The level of products, which bind most of all operators between two operands.
pub const TIGHTEST: usize = 4;

/// An operator between two operands. A turned one has its first operand behind it.
#[derive(Clone, Copy)]
pub struct Infix {
    pub level: usize,
    pub operator: Operator,
    pub is_turned: bool,
}

fn straight(level: usize, operator: Operator) -> Option<Infix>
    ensures { result ≡ Some (record { level = level; operator = operator; is_turned = false }) }
{
    Some(Infix {
        level,
        operator,
        is_turned: false,
    })
}

fn turned(level: usize, operator: Operator) -> Option<Infix>
    ensures { result ≡ Some (record { level = level; operator = operator; is_turned = true }) }
{
    Some(Infix {
        level,
        operator,
        is_turned: true,
    })
}

fn infix_of_sign(sign: Sign) -> Option<Infix>
    ensures { result ≡ infix_of_sign sign }
{
    match sign {
        Sign::Equal => straight(2, Operator::Equal),
        Sign::Differs => straight(2, Operator::Differs),
        Sign::Less => straight(2, Operator::Less),
        Sign::AtMost => straight(2, Operator::AtMost),
        Sign::Greater => turned(2, Operator::Less),
        Sign::AtLeast => turned(2, Operator::AtMost),
        Sign::Plus => straight(3, Operator::Add),
        Sign::Minus => straight(3, Operator::Subtract),
        Sign::Times => straight(4, Operator::Multiply),
        Sign::Slash => straight(4, Operator::Divide),
        Sign::Becomes => None,
        Sign::Open => None,
        Sign::Close => None,
        Sign::OpenBrace => None,
        Sign::CloseBrace => None,
        Sign::Comma => None,
        Sign::Semicolon => None,
        Sign::Colon => None,
    }
}

fn infix_of_word(word: Reserved) -> Option<Infix>
    ensures { result ≡ infix_of_word word }
{
    match word {
        Reserved::Or => straight(0, Operator::Or),
        Reserved::Xor => straight(0, Operator::Xor),
        Reserved::And => straight(1, Operator::And),
        Reserved::Modulo => straight(4, Operator::Modulo),
        Reserved::Remainder => straight(4, Operator::Remainder),
        Reserved::Output => None,
        Reserved::Create => None,
        Reserved::Next => None,
        Reserved::Stop => None,
        Reserved::If => None,
        Reserved::Then => None,
        Reserved::Else => None,
        Reserved::Fi => None,
        Reserved::To => None,
        Reserved::Via => None,
        Reserved::Channel => None,
        Reserved::Not => None,
        Reserved::True => None,
        Reserved::False => None,
        Reserved::Null => None,
        Reserved::Env => None,
        Reserved::SelfPid => None,
        Reserved::Parent => None,
        Reserved::Offspring => None,
        Reserved::Sender => None,
        Reserved::Serial => None,
    }
}

/// The operator between two operands that the token is.
pub fn infix_of(kind: Kind) -> Option<Infix>
    ensures { result ≡ infix_of kind }
{
    match kind {
        Kind::Sign(sign) => infix_of_sign(sign),
        Kind::Word(word) => infix_of_word(word),
        Kind::Integer => None,
        Kind::Name => None,
    }
}

/// The sort that the operator wants of both its operands, where this is the first one's.
pub fn wanted_sort(operator: Operator, first: Sort) -> Sort
    ensures { result ≡ sort_wanted operator first }
{
    match operator {
        Operator::Add => Sort::Integer,
        Operator::Subtract => Sort::Integer,
        Operator::Multiply => Sort::Integer,
        Operator::Divide => Sort::Integer,
        Operator::Modulo => Sort::Integer,
        Operator::Remainder => Sort::Integer,
        Operator::Equal => first,
        Operator::Differs => first,
        Operator::Less => Sort::Integer,
        Operator::AtMost => Sort::Integer,
        Operator::And => Sort::Boolean,
        Operator::Or => Sort::Boolean,
        Operator::Xor => Sort::Boolean,
    }
}
