//! Where a name stands, and what stands at a number. Of equal names the first counts.
ghost use Rattle.std.specs.Prelude.{◌≡◌, ℕ, ◌<◌, ◌≤◌, IfSome, IfNone, IsSome, slice_get, position, bytes_eq, length};
ghost use Rattle.sdl_signal.specs.Names.{IsLexicon};
ghost use Rattle.sdl_signal.specs.Reading.{IsNamedAt, IsNowhere};

use super::{Name, Names, SignalEntry};
use crate::ids::{GateId, SetId, SignalId};

/// The place of the first name that is `text`.
fn place_of_name(names: &[Name], text: &[u8]) -> Option<usize>
    ensures place { result ≡ position (λ n. bytes_eq n.bytes text.now) names.now }
    ensures within { IfSome result (λ i. i < length names.now) }
{
    names.iter().position(|name| name.as_bytes() == text)
}

/// The place of the first signal whose name is `text`.
fn place_of_signal(signals: &[SignalEntry], text: &[u8]) -> Option<usize>
    ensures place { result ≡ position (λ s. bytes_eq s.name.bytes text.now) signals.now }
    ensures within { IfSome result (λ i. i < length signals.now) }
{
    signals
        .iter()
        .position(|signal| signal.name.as_bytes() == text)
}

impl Names {
    /// Each name keeps the rule of names, and no signal has over four parameters.
    pub(crate) fn keep_rules(&self)
        ensures { IsLexicon self.now }
    {
        let _names = &self.gates;
    }

    /// The first gate of this name.
    pub(crate) fn gate_named(&self, text: &[u8]) -> Option<GateId>
        ensures found { IfSome result (λ gate. IsNamedAt (λ n. n) self.now.gates text.now gate.0) }
        ensures absent { IfNone result (IsNowhere (λ n. n) self.now.gates text.now) }
    {
        let Some(place) = place_of_name(&self.gates, text) else {
            return None;
        };
        Some(GateId(place as u32))
    }

    /// The first signal of this name.
    pub(crate) fn signal_named(&self, text: &[u8]) -> Option<SignalId>
        ensures found { IfSome result (λ signal. IsNamedAt (λ s. s.name) self.now.signals text.now signal.0) }
        ensures absent { IfNone result (IsNowhere (λ s. s.name) self.now.signals text.now) }
    {
        let Some(place) = place_of_signal(&self.signals, text) else {
            return None;
        };
        Some(SignalId(place as u32))
    }

    /// The first set of this name.
    pub(crate) fn set_named(&self, text: &[u8]) -> Option<SetId>
        ensures found { IfSome result (λ set. IsNamedAt (λ n. n) self.now.sets text.now set.0) }
        ensures absent { IfNone result (IsNowhere (λ n. n) self.now.sets text.now) }
    {
        let Some(place) = place_of_name(&self.sets, text) else {
            return None;
        };
        Some(SetId(place as u32))
    }

    /// The name of a gate.
    pub(crate) fn gate_name(&self, gate: GateId) -> &[u8]
        requires { IsSome (slice_get self.now.gates gate.0) }
        ensures name { slice_get self.now.gates gate.0 ≡ Some result.now }
        ensures few { length result.now ≤ 32 }
    {
        self.gates[gate.0 as usize].as_bytes()
    }

    /// The name of a set.
    pub(crate) fn set_name(&self, set: SetId) -> &[u8]
        requires { IsSome (slice_get self.now.sets set.0) }
        ensures name { slice_get self.now.sets set.0 ≡ Some result.now }
        ensures few { length result.now ≤ 32 }
    {
        self.sets[set.0 as usize].as_bytes()
    }

    /// A signal's name and sorts.
    pub(crate) fn signal(&self, signal: SignalId) -> &SignalEntry
        requires { IsSome (slice_get self.now.signals signal.0) }
        ensures { slice_get self.now.signals signal.0
            ≡ Some (record { name = result.now.name.bytes; sorts = result.now.sorts.items }) }
    {
        &self.signals[signal.0 as usize]
    }
}
