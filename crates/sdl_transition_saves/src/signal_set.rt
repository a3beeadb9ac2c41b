//! A set of signals.
ghost use Rattle.std.specs.Prelude.{◌≡◌, ◌<◌, ◌||◌, false, nat_eq};
ghost use Rattle.sdl_signal.specs.declared.ids.SignalId.{SignalId as ASignal};
ghost use Rattle.sdl_transition_saves.specs.Saves.{holds, no_signal};

use sdl_signal::SignalId;

/// A set of signals. A structure has at most 64.
#[derive(Clone, Copy, Debug, Default, PartialEq, Eq)]
pub struct SignalSet {
    bits: u64,
}

impl SignalSet {
    /// No signal.
    #[inline(always)]
    pub fn none() -> SignalSet
        ensures value { result ≡ no_signal }
        ensures none { (s : ASignal) → holds result s ≡ false }
    {
        SignalSet { bits: 0 }
    }

    /// Whether the signal is one of the set.
    #[inline(always)]
    pub fn has(&self, signal: SignalId) -> bool
        ensures { result ≡ holds self.now signal }
    {
        let bits = self.bits;
        signal.0 < 64 && (bits >> signal.0) & 1 == 1
    }

    /// Adds the signal.
    pub fn add(&mut self, signal: SignalId)
        requires { signal.0 < 64 }
        ensures { (s : ASignal) → holds self.new s ≡ (nat_eq signal.0 s.0 || holds self.old s) }
    {
        self.bits |= 1 << signal.0;
    }
}
