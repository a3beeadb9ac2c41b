//! The places of faults.
ghost use Rattle.std.specs.Prelude.{◌≡◌, ◌+◌, ◌<◌, ◌≤◌, length, position, All, Contains, IfOk, IfErr, IfSome};
ghost use Rattle.sdl_listing_tokens.specs.Tokens.{AreTokens, IsBadByte};
ghost use Rattle.sdl_listing_body_text.specs.Rows.{IsWithin, begins_character};

use sdl_listing_expression_text::{Fault, Stopped, TextFault};
use sdl_listing_tokens::{CutFault, Token, cut};
use std::alloc::Global;

/// Why a text is refused: a fault with the bytes of the text where it is, none of them at its end; or want of memory.
#[derive(Clone, Copy, Debug)]
pub enum Refusal {
    Memory,
    Fault {
        fault: TextFault,
        start: usize,
        end: usize,
    },
}

/// Whether the byte begins a character.
fn begins_character(b: u8) -> bool
    ensures { result ≡ begins_character b }
{
    b < 128 || 192 <= b
}

/// Before how many of the bytes the next character begins.
fn next_character(bytes: &[u8]) -> Option<usize>
    ensures place { result ≡ position begins_character bytes.now }
    ensures within { IfSome result (λ i. i < length bytes.now) }
{
    bytes.iter().position(|b| begins_character(*b))
}

/// Where the character ends of which a byte stands before this place.
fn character_end(text: &[u8], start: usize) -> usize
    requires { start ≤ length text.now }
    ensures from { start ≤ result }
    ensures within { result ≤ length text.now }
{
    let size = text.len();
    let (_, behind) = text.split_at(start);
    match next_character(behind) {
        Some(count) => start + count,
        None => size,
    }
}

/// The place of the bad byte: of all bytes of its character.
fn bad_byte(text: &[u8], start: usize) -> Refusal
    requires { start < length text.now }
    ensures { IsWithin text.now result }
{
    let end = character_end(text, start + 1);
    Refusal::Fault {
        fault: TextFault::BadByte,
        start,
        end,
    }
}

/// The token from which on so many are left.
fn token_left<'a, 'b>(tokens: &'b [Token<'a>], left: usize) -> Option<&'b Token<'a>>
    ensures { IfSome result (λ t. Contains tokens.now t.now) }
{
    if tokens.len() < left {
        return None;
    }
    tokens.get(tokens.len() - left)
}

/// The place of a fault at a token, or at the end of the text.
fn placed(text: &[u8], tokens: &[Token], fault: Fault) -> Refusal
    requires { All (λ t. t.start + length t.text.now ≤ length text.now) tokens.now }
    ensures { IsWithin text.now result }
{
    let size = text.len();
    match token_left(tokens, fault.left) {
        Some(token) => Refusal::Fault {
            fault: fault.fault,
            start: token.start,
            end: token.start + token.text.len(),
        },
        None => Refusal::Fault {
            fault: fault.fault,
            start: size,
            end: size,
        },
    }
}

/// Why a text is refused whose tokens could not be read.
pub fn refused(text: &[u8], tokens: &[Token], stopped: Stopped) -> Refusal
    requires { All (λ t. t.start + length t.text.now ≤ length text.now) tokens.now }
    ensures { IsWithin text.now result }
{
    match stopped {
        Stopped::Memory => Refusal::Memory,
        Stopped::Fault(fault) => placed(text, tokens, fault),
    }
}

/// Why a text is refused that is not cut into tokens.
fn uncut(text: &[u8], fault: CutFault) -> Refusal
    requires { IsBadByte text.now fault }
    ensures { IsWithin text.now result }
{
    match fault {
        CutFault::Memory => Refusal::Memory,
        CutFault::BadByte(start) => bad_byte(text, start),
    }
}

/// The tokens of a text, or its first bad byte.
pub fn tokens_of<'a>(alloc: Global, text: &'a [u8]) -> Result<Vec<Token<'a>>, Refusal>
    ensures tokens { IfOk result (λ tokens. AreTokens 0 text.now tokens.items) }
    ensures within { IfOk result (λ tokens. All (λ t. t.start + length t.text.now ≤ length text.now) tokens.items) }
    ensures place { IfErr result (IsWithin text.now) }
{
    match cut(alloc, text) {
        Ok(tokens) => Ok(tokens),
        Err(fault) => Err(uncut(text, fault)),
    }
}
