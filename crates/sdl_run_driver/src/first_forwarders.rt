//! Where the forwarders of each channel stand, so that a round finds the next one with work at once.
ghost use Rattle.std.specs.Prelude.{◌≡◌, ℕ, ◌<◌, ◌≤◌, Some, length, slice_get};
ghost use Rattle.sdl_forward.specs.Forwards.{Forwarding};
ghost use Rattle.sdl_run_driver.specs.Drivers.{AreByChannel};

use sdl_forward::Forwarder;
use sdl_signal::ChannelId;
use sdl_structure_parts::limits::MOST_CHANNELS;

/// For each channel, how many forwarders are of channels before it: there stands the first one of that channel, or of a later one.
/// It need not be right, and no claim rests on it.
#[derive(Drop)]
pub(crate) struct FirstForwarders {
    first: [u8; MOST_CHANNELS + 1],
}

impl FirstForwarders {
    /// The places of these forwarders, which stand by channel.
    pub(crate) fn of(forwarders: &[Forwarder]) -> FirstForwarders {
        let mut first = [0; MOST_CHANNELS + 1];
        for (place, forwarder) in forwarders.iter().enumerate() {
            let next = (forwarder.hop().channel.0 as usize).min(MOST_CHANNELS - 1) + 1;
            // (there are at most 128 forwarders, two for each channel)
            first[next..].fill((place + 1).min(255) as u8);
        }
        FirstForwarders { first }
    }

    /// Where the first forwarder of this channel stands, or of a later one.
    #[inline(always)]
    pub(crate) fn first_from(&self, channel: ChannelId) -> usize {
        self.first[(channel.0 as usize).min(MOST_CHANNELS)] as usize
    }
}

/// A forwarder up to which, from this one on, all are of channels before this one: the one at this place, where that is right, which
/// the one before it tells.
#[inline(always)]
pub(crate) fn next_of(
    forwarders: &[Forwarder],
    from: usize,
    place: usize,
    channel: ChannelId,
) -> usize
    requires within { from ≤ length forwarders.now }
    requires order { AreByChannel forwarders.now }
    ensures from { from ≤ result }
    ensures within { result ≤ length forwarders.now }
    ensures lower { (k : ℕ) (f : Forwarding) → from ≤ k → k < result → slice_get forwarders.now k ≡ Some f → f.hop.channel.0 < channel.0 }
{
    if from < place && place <= forwarders.len() {
        let last = forwarders[place - 1].hop().channel;
        if last.0 < channel.0 {
            return place;
        }
    }
    from
}
