//! How far a text is read.
ghost use Rattle.std.specs.Prelude.{◌≡◌, ◌<◌, ◌≢◌, ◌+◌, ◌↔◌, [], ◌∷◌, length, drop, IsTrue, true, false, IfSome, IfNone, IfOk, IfErr};
ghost use Rattle.sdl_listing_tokens.specs.declared.tokens.Kind.TheVariants as kind;
ghost use Rattle.sdl_listing_expression_text.specs.declared.fault.TextFault.TheVariants.{Expected, TooLong, WrongSort};
ghost use Rattle.sdl_listing_expression_text.specs.declared.fault.Wanted.TheVariants as wanted_at;
ghost use Rattle.sdl_listing_expression_text.specs.Faults.{fault_at};
ghost use Rattle.sdl_listing_expression_text.specs.Ways as rule;
ghost use Rattle.sdl_listing_expression_text.specs.Spelling.{BeginsWith, IsOne, IsNameOf, Reads, is_number, begins_number};

use crate::fault::{Fault, Stopped, TextFault, Wanted};
use sdl_listing_tokens::{Kind, Reserved, Sign, Token};
use sdl_signal::Sort;

/// How many statements, operators and primaries a text may have.
const MOST_PARTS: usize = 512;

/// How many outputs and creates may stand on one way.
const MOST_ACTIONS: usize = 8;

/// The tokens that are left, and what was found on the ways to them.
#[derive(Clone, Copy)]
pub struct Cursor<'a> {
    pub tokens: &'a [Token<'a>],
    /// How many more parts the text may have.
    pub parts: usize,
    /// The most outputs and creates on a way to here, and none where no way leads here.
    pub made: Option<usize>,
    /// Whether there is a create on some way to here.
    pub has_create: bool,
    /// The first of the faults that count only where the whole text can be read.
    pub late: Option<Fault>,
}

/// What was read, and what is left.
pub type Read<'a, X> = Result<(X, Cursor<'a>), Stopped>;

fn is_number(found: Kind) -> bool
    ensures { result ≡ is_number found }
{
    match found {
        Kind::Integer => true,
        Kind::Name => false,
        Kind::Word(_) => false,
        Kind::Sign(_) => false,
    }
}

fn is_sign(found: Kind, sign: Sign) -> bool
    ensures { IsTrue result ↔ (found ≡ kind.Sign sign) }
{
    match found {
        Kind::Integer => false,
        Kind::Name => false,
        Kind::Word(_) => false,
        Kind::Sign(own) => own == sign,
    }
}

fn is_word(found: Kind, word: Reserved) -> bool
    ensures { IsTrue result ↔ (found ≡ kind.Word word) }
{
    match found {
        Kind::Integer => false,
        Kind::Name => false,
        Kind::Word(own) => own == word,
        Kind::Sign(_) => false,
    }
}

impl<'a> Cursor<'a> {
    /// Before the first token.
    pub fn new(tokens: &'a [Token<'a>]) -> Cursor<'a>
        ensures tokens { result.tokens.now ≡ tokens.now }
        ensures parts { result.parts ≡ 512 }
        ensures ways { (result.made ≡ Some 0) × (result.has_create ≡ false) × (result.late ≡ None) }
    {
        Cursor {
            tokens,
            parts: MOST_PARTS,
            made: Some(0),
            has_create: false,
            late: None,
        }
    }

    /// How many tokens are left.
    pub fn left(self) -> usize
        ensures { result ≡ length self.entry.tokens.now }
    {
        self.tokens.len()
    }

    /// The next token and what stands behind it.
    pub fn next(self) -> Option<(Token<'a>, Cursor<'a>)>
        ensures none { IfNone result (self.entry.tokens.now ≡ []) }
        ensures some { IfSome result (λ r. self.entry.tokens.now ≡ r.0 ∷ r.1.tokens.now) }
    {
        match self.tokens {
            [] => None,
            [token, rest @ ..] => Some((
                *token,
                Cursor {
                    tokens: rest,
                    ..self
                },
            )),
        }
    }

    /// What the next token is.
    pub fn kind(self) -> Option<Kind>
        ensures none { IfNone result (self.entry.tokens.now ≡ []) }
        ensures some { IfSome result (λ k. BeginsWith k self.entry.tokens.now) }
    {
        match self.next() {
            Some((token, _)) => Some(token.kind),
            None => None,
        }
    }

    /// Behind the next token, where there is one.
    pub fn inner(self) -> Cursor<'a>
        ensures { result.tokens.now ≡ drop 1 self.entry.tokens.now }
    {
        match self.next() {
            Some((_, rest)) => rest,
            None => self,
        }
    }

    /// Whether a number stands at the front.
    pub fn begins_number(self) -> bool
        ensures { result ≡ begins_number self.entry.tokens.now }
    {
        match self.next() {
            Some((token, _)) => is_number(token.kind),
            None => false,
        }
    }

    /// Whether the sign stands at the front.
    pub fn has_sign(self, sign: Sign) -> bool
        ensures { IsTrue result ↔ BeginsWith (kind.Sign sign) self.entry.tokens.now }
    {
        match self.next() {
            Some((token, _)) => is_sign(token.kind, sign),
            None => false,
        }
    }

    /// Whether the word stands at the front.
    pub fn has_word(self, word: Reserved) -> bool
        ensures { IsTrue result ↔ BeginsWith (kind.Word word) self.entry.tokens.now }
    {
        match self.next() {
            Some((token, _)) => is_word(token.kind, word),
            None => false,
        }
    }

    /// The fault at the next token.
    pub fn fault(self, fault: TextFault) -> Stopped
        ensures { result ≡ fault_at self.entry.tokens.now fault }
    {
        Stopped::Fault(Fault {
            fault,
            left: self.left(),
        })
    }

    /// Passes over the sign.
    pub fn sign(self, sign: Sign) -> Result<Cursor<'a>, Stopped>
        ensures shorter { IfOk result (λ r. length r.tokens.now < length self.entry.tokens.now) }
        ensures read { IfOk result (λ r. Reads (IsOne (kind.Sign sign)) self.entry.tokens.now r.tokens.now) }
        ensures other { IfErr result (λ _. ¬ BeginsWith (kind.Sign sign) self.entry.tokens.now) }
        ensures fault { IfErr result (λ e. e ≡ fault_at self.entry.tokens.now (Expected (wanted_at.Sign sign))) }
    {
        let wanted = TextFault::Expected(Wanted::Sign(sign));
        let Some((token, rest)) = self.next() else {
            return Err(self.fault(wanted));
        };
        if is_sign(token.kind, sign) {
            return Ok(rest);
        }
        Err(self.fault(wanted))
    }

    /// Passes over the word.
    pub fn word(self, word: Reserved) -> Result<Cursor<'a>, Stopped>
        ensures shorter { IfOk result (λ r. length r.tokens.now < length self.entry.tokens.now) }
        ensures read { IfOk result (λ r. Reads (IsOne (kind.Word word)) self.entry.tokens.now r.tokens.now) }
        ensures other { IfErr result (λ _. ¬ BeginsWith (kind.Word word) self.entry.tokens.now) }
        ensures fault { IfErr result (λ e. e ≡ fault_at self.entry.tokens.now (Expected (wanted_at.Word word))) }
    {
        let wanted = TextFault::Expected(Wanted::Word(word));
        let Some((token, rest)) = self.next() else {
            return Err(self.fault(wanted));
        };
        if is_word(token.kind, word) {
            return Ok(rest);
        }
        Err(self.fault(wanted))
    }

    /// The bytes of a name.
    pub fn name(self, wanted: Wanted) -> Read<'a, &'a [u8]>
        ensures shorter { IfOk result (λ r. length r.1.tokens.now < length self.entry.tokens.now) }
        ensures read { IfOk result (λ r. Reads (IsNameOf r.0.now) self.entry.tokens.now r.1.tokens.now) }
        ensures other { IfErr result (λ _. ¬ BeginsWith kind.Name self.entry.tokens.now) }
        ensures fault { IfErr result (λ e. e ≡ fault_at self.entry.tokens.now (Expected wanted)) }
    {
        let Some((token, rest)) = self.next() else {
            return Err(self.fault(TextFault::Expected(wanted)));
        };
        match token.kind {
            Kind::Name => Ok((token.text, rest)),
            _ => Err(self.fault(TextFault::Expected(wanted))),
        }
    }

    /// Counts a part, which begins with the next token.
    pub fn part(self) -> Result<Cursor<'a>, Stopped>
        ensures tokens { IfOk result (λ r. r.tokens.now ≡ self.entry.tokens.now) }
        ensures counted { IfOk result (λ r. r.parts + 1 ≡ self.entry.parts) }
        ensures full { IfErr result (λ _. self.entry.parts ≡ 0) }
        ensures fault { IfErr result (λ e. e ≡ fault_at self.entry.tokens.now TooLong) }
    {
        if self.parts == 0 {
            return Err(self.fault(TextFault::TooLong));
        }
        Ok(Cursor {
            parts: self.parts - 1,
            ..self
        })
    }

    /// Counts the part that begins with the next token, and goes on behind it.
    pub fn counted(self, behind: Cursor<'a>) -> Result<Cursor<'a>, Stopped>
        ensures tokens { IfOk result (λ r. r.tokens.now ≡ behind.entry.tokens.now) }
        ensures counted { IfOk result (λ r. r.parts + 1 ≡ self.entry.parts) }
        ensures full { IfErr result (λ _. self.entry.parts ≡ 0) }
        ensures fault { IfErr result (λ e. e ≡ fault_at self.entry.tokens.now TooLong) }
    {
        let counted = self.part()?;
        Ok(Cursor {
            parts: counted.parts,
            ..behind
        })
    }

    /// Keeps a fault at the next token, unless there is one from before.
    pub fn with_late(self, fault: TextFault) -> Cursor<'a>
        ensures tokens { result.tokens.now ≡ self.entry.tokens.now }
        ensures late { result ≡ rule.with_late fault self.entry }
    {
        match self.late {
            Some(_) => self,
            None => Cursor {
                late: Some(Fault {
                    fault,
                    left: self.left(),
                }),
                ..self
            },
        }
    }

    /// Sees that some way leads here.
    pub fn reached(self) -> Cursor<'a>
        ensures tokens { result.tokens.now ≡ self.entry.tokens.now }
        ensures late { result ≡ rule.reached_by self.entry.made self.entry }
    {
        match self.made {
            Some(_) => self,
            None => self.with_late(TextFault::NeverReached),
        }
    }

    /// Counts an output or a create at the next token, and goes on behind it.
    pub fn acted(self, behind: Cursor<'a>) -> Cursor<'a>
        ensures tokens { result.tokens.now ≡ behind.entry.tokens.now }
        ensures ways { result ≡ rule.acted_by self.entry.made self.entry behind.entry }
    {
        let Some(made) = self.made else {
            return behind;
        };
        if made < MOST_ACTIONS {
            return Cursor {
                made: Some(made + 1),
                ..behind
            };
        }
        Cursor {
            late: self.with_late(TextFault::ManyActions).late,
            ..behind
        }
    }

    /// The same place behind a create.
    pub fn created(self) -> Cursor<'a>
        ensures tokens { result.tokens.now ≡ self.entry.tokens.now }
        ensures ways { result ≡ record self.entry { has_create = true } }
    {
        Cursor {
            has_create: true,
            ..self
        }
    }

    /// The same place where no way leads to.
    pub fn ended(self) -> Cursor<'a>
        ensures tokens { result.tokens.now ≡ self.entry.tokens.now }
        ensures ways { result ≡ record self.entry { made = None } }
    {
        Cursor { made: None, ..self }
    }

    /// The same place with the ways that led to another one.
    pub fn from_ways(self, other: Cursor<'a>) -> Cursor<'a>
        ensures tokens { result.tokens.now ≡ self.entry.tokens.now }
        ensures ways { result ≡ rule.from_ways self.entry other.entry }
    {
        Cursor {
            made: other.made,
            has_create: other.has_create,
            ..self
        }
    }

    /// The same place with the ways that led to another one as well.
    pub fn joined(self, other: Cursor<'a>) -> Cursor<'a>
        ensures tokens { result.tokens.now ≡ self.entry.tokens.now }
        ensures ways { result ≡ rule.joined_by self.entry.made other.entry.made self.entry other.entry }
    {
        match (self.made, other.made) {
            (None, _) => self.from_ways(other),
            (Some(_), None) => self,
            (Some(a), Some(b)) => Cursor {
                made: Some(a.max(b)),
                has_create: self.has_create || other.has_create,
                ..self
            },
        }
    }

    /// Sees that the value that begins at the next token has the sort that is wanted.
    pub fn sorted(self, found: Sort, wanted: Sort) -> Result<(), Stopped>
        ensures same { IfOk result (λ _. found ≡ wanted) }
        ensures other { IfErr result (λ _. found ≢ wanted) }
        ensures fault { IfErr result (λ e. e ≡ fault_at self.entry.tokens.now (WrongSort found wanted)) }
    {
        if found == wanted {
            return Ok(());
        }
        Err(self.fault(TextFault::WrongSort { found, wanted }))
    }
}
