//! The names of a system.
ghost use Rattle.std.specs.Prelude.{◌≡◌, ◌<◌, ◌^◌, [], ◌∷◌, ◌++◌, length, IfSome, IfNone, OnOk, OnErr, ◌↔◌, ◌⊎◌, IsTrue};
ghost use Rattle.sdl_signal.specs.Names.{IsName};
ghost use Rattle.sdl_signal.specs.Names as rule;
ghost use Rattle.std.specs.List.{list_all};

mod lookup;

use crate::values::Sort;
use arrayvec::{ArrayString, ArrayVec};
use std::alloc::{AllocError, Global};
use std::marker::Model;

/// The text of a name.
pub type Name = ArrayString<32>;

/// The text as a name.
pub fn name(text: &str) -> Option<Name>
    ensures found { IfSome result (λ n. (n.bytes ≡ text.now) × IsName text.now) }
    ensures refused { IfNone result (¬ IsName text.now) }
{
    if is_name(text.as_bytes()) {
        Name::from(text).ok()
    } else {
        None
    }
}

/// Whether the bytes are a name.
fn is_name(text: &[u8]) -> bool
    ensures { result ≡ rule.is_name text.now }
{
    is_spelled(text) && text.len() <= 32 && text != b"env".as_slice()
}

fn is_spelled(text: &[u8]) -> bool
    ensures { result ≡ rule.is_spelled text.now }
{
    !text.is_empty() && is_letter(text[0]) && are_name_bytes(text)
}

fn are_name_bytes(text: &[u8]) -> bool
    ensures { result ≡ list_all rule.is_name_byte text.now }
{
    text.iter().all(|b| is_name_byte(*b))
}

fn is_letter(b: u8) -> bool
    ensures { result ≡ rule.is_letter b }
{
    (65 <= b && b <= 90) || (97 <= b && b <= 122)
}

fn is_name_byte(b: u8) -> bool
    ensures { result ≡ rule.is_name_byte b }
{
    is_letter(b) || (48 <= b && b <= 57) || b == 95
}

/// A signal's name and the sorts of its parameters.
#[derive(Drop)]
pub(crate) struct SignalEntry {
    pub name: Name,
    pub sorts: ArrayVec<Sort, 4>,
}

/// The names of a system's gates, signals and sets.
#[derive(Drop)]
pub struct Names {
    gates: Vec<Name>,
    signals: Vec<SignalEntry>,
    sets: Vec<Name>,
}

impl Model for Names {
    ghost use Rattle.sdl_signal.specs.Names.{Lexicon};

    ghost Value = { Lexicon };

    ghost use Rattle.sdl_signal.specs.View.{lexicon_of, KeepsRules};

    ghost view = { lexicon_of };

    ghost invariant = { KeepsRules };
}

impl Names {
    pub fn new(alloc: Global) -> Self
        ensures { result ≡ record { gates = []; signals = []; sets = [] } }
    {
        Names {
            gates: Vec::new(alloc),
            signals: Vec::new(alloc),
            sets: Vec::new(alloc),
        }
    }

    pub fn add_gate(&mut self, name: Name) -> Result<(), AllocError>
        requires named { IsName name.bytes }
        requires few { length self.old.gates < 2 ^ 16 }
        ensures ok { OnOk result (self.new ≡ record self.old { gates = self.old.gates ++ name.bytes ∷ [] }) }
        ensures err { OnErr result (self.new ≡ self.old) }
    {
        self.gates.push(name)?;
        Ok(())
    }

    pub fn add_signal(&mut self, name: Name, sorts: ArrayVec<Sort, 4>) -> Result<(), AllocError>
        requires named { IsName name.bytes }
        requires few { length self.old.signals < 2 ^ 16 }
        ensures ok { OnOk result (self.new ≡ record self.old { signals = self.old.signals ++ record { name = name.bytes; sorts = sorts.items } ∷ [] }) }
        ensures err { OnErr result (self.new ≡ self.old) }
    {
        self.signals.push(SignalEntry { name, sorts })?;
        Ok(())
    }

    pub fn add_set(&mut self, name: Name) -> Result<(), AllocError>
        requires named { IsName name.bytes }
        requires few { length self.old.sets < 2 ^ 16 }
        ensures ok { OnOk result (self.new ≡ record self.old { sets = self.old.sets ++ name.bytes ∷ [] }) }
        ensures err { OnErr result (self.new ≡ self.old) }
    {
        self.sets.push(name)?;
        Ok(())
    }
}
