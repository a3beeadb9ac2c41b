//! The tokens of a text.
ghost use Rattle.std.specs.Prelude.{◌≡◌, ◌<◌, ◌≤◌, ◌+◌, ◌^◌, length, take, position, is_some, IfOk, IfErr, IfSome, All};
ghost use Rattle.sdl_signal.specs.Names.{is_letter, is_name_byte};
ghost use Rattle.sdl_listing_tokens.specs.Tokens.{closes_name, closes_number, first_that, is_word, begins_with, is_digit, is_blank, gap_step, IsGap, IsLastGap, has_new_line, word_of, kind_of_word, sign_at, token_at, name_size, number_size, AreTokens, IsBadByte};

use crate::signs::{SIGNS, Sign};
use crate::words::{RESERVED, Reserved};
use std::alloc::{AllocError, AllocFailed, Global};

/// What a token is.
#[derive(Clone, Copy)]
pub enum Kind {
    /// Digits.
    Integer,
    /// A letter, and then letters, digits and underscores, and no reserved word.
    Name,
    Word(Reserved),
    Sign(Sign),
}

/// A token of a text.
#[derive(Clone, Copy)]
pub struct Token<'a> {
    pub kind: Kind,
    pub text: &'a [u8],
    /// How many bytes of the text stand before it.
    pub start: usize,
    /// Whether a new line stands between it and what is before it.
    pub fresh: bool,
}

/// Why a text was not cut into tokens.
#[derive(Clone, Copy)]
pub enum CutFault {
    /// No token has the byte behind so many.
    BadByte(usize),
    Memory,
}

impl<T: Drop> From<AllocFailed<T>> for CutFault {
    ghost use Rattle.sdl_listing_tokens.specs.declared.tokens.CutFault.TheVariants.{Memory};

    ghost from_gives = { λ _ e. e ≡ Memory };

    fn from(_error: AllocFailed<T>) -> CutFault {
        CutFault::Memory
    }
}

impl From<AllocError> for CutFault {
    ghost use Rattle.sdl_listing_tokens.specs.declared.tokens.CutFault.TheVariants.{Memory};

    ghost from_gives = { λ _ e. e ≡ Memory };

    fn from(_error: AllocError) -> CutFault {
        CutFault::Memory
    }
}

const NEW_LINE: u8 = 10;

fn is_letter(b: u8) -> bool
    ensures { result ≡ is_letter b }
{
    (65 <= b && b <= 90) || (97 <= b && b <= 122)
}

fn is_digit(b: u8) -> bool
    ensures { result ≡ is_digit b }
{
    48 <= b && b <= 57
}

fn is_name_byte(b: u8) -> bool
    ensures { result ≡ is_name_byte b }
{
    is_letter(b) || is_digit(b) || b == 95
}

/// A blank, a tab or a new line.
fn is_blank(b: u8) -> bool
    ensures { result ≡ is_blank b }
{
    b == 32 || b == 9 || b == NEW_LINE
}

/// Whether a comment is open behind the byte of a gap, where one is open before it or not.
fn gap_step(in_comment: bool, b: u8) -> Option<bool>
    ensures { result ≡ gap_step in_comment b }
{
    if in_comment {
        Some(b != NEW_LINE)
    } else if b == 35 {
        Some(true)
    } else if is_blank(b) {
        Some(false)
    } else {
        None
    }
}

/// How many bytes at the front are no token: blanks, tabs and new lines, and from `#` to the end of the line.
fn gap_length(text: &[u8]) -> usize
    ensures within { result ≤ length text.now }
    ensures gap { result < length text.now → IsGap (take result text.now) }
    ensures last { IsLastGap (take result text.now) }
{
    let mut in_comment = false;
    for (i, b) in text.iter().enumerate() {
        match gap_step(in_comment, *b) {
            Some(behind) => in_comment = behind,
            None => return i,
        }
    }
    text.len()
}

fn has_new_line(gap: &[u8]) -> bool
    ensures { result ≡ has_new_line gap.now }
{
    gap.iter().any(|b| *b == NEW_LINE)
}

fn closes_name(b: u8) -> bool
    ensures { result ≡ closes_name b }
{
    !is_name_byte(b)
}

fn closes_number(b: u8) -> bool
    ensures { result ≡ closes_number b }
{
    !is_digit(b)
}

fn name_end(behind: &[u8]) -> Option<usize>
    ensures value { result ≡ position closes_name behind.now }
    ensures within { IfSome result (λ i. i < length behind.now) }
{
    behind.iter().position(|b| closes_name(*b))
}

fn number_end(behind: &[u8]) -> Option<usize>
    ensures value { result ≡ position closes_number behind.now }
    ensures within { IfSome result (λ i. i < length behind.now) }
{
    behind.iter().position(|b| closes_number(*b))
}

/// How many bytes a name has whose first one stands before these.
fn name_size(behind: &[u8]) -> usize
    requires { length behind.now < 2 ^ 63 }
    ensures value { result ≡ name_size behind.now }
    ensures within { result ≤ 1 + length behind.now }
{
    match name_end(behind) {
        Some(count) => 1 + count,
        None => 1 + behind.len(),
    }
}

/// How many digits a number has whose first one stands before these bytes.
fn number_size(behind: &[u8]) -> usize
    requires { length behind.now < 2 ^ 63 }
    ensures value { result ≡ number_size behind.now }
    ensures within { result ≤ 1 + length behind.now }
{
    match number_end(behind) {
        Some(count) => 1 + count,
        None => 1 + behind.len(),
    }
}

fn is_word(word: Reserved, text: &[u8]) -> bool
    ensures { result ≡ is_word text.now word }
{
    word.text().as_bytes() == text
}

fn place_of_word(words: &[Reserved], text: &[u8]) -> Option<usize>
    ensures place { result ≡ position (λ w. is_word text.now w) words.now }
    ensures within { IfSome result (λ i. i < length words.now) }
{
    words.iter().position(|word| is_word(*word, text))
}

/// The first of the words that is spelled so.
fn word_among(words: &[Reserved], text: &[u8]) -> Option<Reserved>
    ensures { result ≡ first_that (λ w. is_word text.now w) words.now }
{
    match place_of_word(words, text) {
        Some(place) => Some(words[place]),
        None => None,
    }
}

fn begins_with(text: &[u8], sign: Sign) -> bool
    ensures { result ≡ begins_with text.now sign }
{
    text.starts_with(sign.text().as_bytes())
}

fn place_of_sign(signs: &[Sign], text: &[u8]) -> Option<usize>
    ensures place { result ≡ position (λ s. begins_with text.now s) signs.now }
    ensures within { IfSome result (λ i. i < length signs.now) }
{
    signs.iter().position(|sign| begins_with(text, *sign))
}

/// The first of the signs that the text begins with.
fn sign_among(signs: &[Sign], text: &[u8]) -> Option<Sign>
    ensures { result ≡ first_that (λ s. begins_with text.now s) signs.now }
{
    match place_of_sign(signs, text) {
        Some(place) => Some(signs[place]),
        None => None,
    }
}

/// The reserved word of these bytes.
fn word_of(text: &[u8]) -> Option<Reserved>
    ensures { result ≡ word_of text.now }
{
    word_among(&RESERVED, text)
}

/// Whether the bytes are a reserved word, which no name of a text can be.
pub fn is_reserved(text: &[u8]) -> bool
    ensures { result ≡ is_some (word_of text.now) }
{
    word_of(text).is_some()
}

fn kind_of_word(text: &[u8]) -> Kind
    ensures { result ≡ kind_of_word text.now }
{
    match word_of(text) {
        Some(word) => Kind::Word(word),
        None => Kind::Name,
    }
}

/// The first sign of the list that stands at the front.
fn sign_at(text: &[u8]) -> Option<Sign>
    ensures { result ≡ sign_at text.now }
{
    sign_among(&SIGNS, text)
}

/// The kind and the length of the token at the front, where there is one.
fn token_at(text: &[u8]) -> Option<(Kind, usize)>
    ensures value { result ≡ token_at text.now }
    ensures within { IfSome result (λ found. found.1 ≤ length text.now) }
    ensures some { IfSome result (λ found. 0 < found.1) }
{
    let [first, behind @ ..] = text else {
        return None;
    };
    if is_letter(*first) {
        let length = name_size(behind);
        return Some((kind_of_word(&text[..length]), length));
    }
    if is_digit(*first) {
        return Some((Kind::Integer, number_size(behind)));
    }
    match sign_at(text) {
        Some(sign) => Some((Kind::Sign(sign), sign.text().len())),
        None => None,
    }
}

/// The tokens of the text, the longest at each place.
///
/// # Errors
///
/// The first byte that no token has, or that memory was refused.
pub fn cut<'a>(alloc: Global, text: &'a [u8]) -> Result<Vec<Token<'a>>, CutFault>
    ensures tokens { IfOk result (λ tokens. AreTokens 0 text.now tokens.items) }
    ensures within { IfOk result (λ tokens. All (λ t. t.start + length t.text.now ≤ length text.now) tokens.items) }
    ensures bad { IfErr result (IsBadByte text.now) }
{
    let mut tokens = Vec::new(alloc);
    let mut at = 0;
    let mut rest = text;
    loop {
        let (gap, behind) = rest.split_at(gap_length(rest));
        let start = at + gap.len();
        if behind.is_empty() {
            return Ok(tokens);
        }
        let Some((kind, length)) = token_at(behind) else {
            return Err(CutFault::BadByte(start));
        };
        let (word, after) = behind.split_at(length);
        tokens.push(Token {
            kind,
            text: word,
            start,
            fresh: has_new_line(gap),
        })?;
        at = start + length;
        rest = after;
    }
}
