//! The ledger of a run: where every signal went.
ghost use Rattle.std.specs.Prelude.{◌≡◌, map, length};
ghost use Rattle.std.specs.List.{AllZip};
ghost use Rattle.sdl_instances_log.specs.Counts.{AreCountsOf};
ghost use Rattle.sdl_forward.specs.Boards.{lists_of};
ghost use Rattle.sdl_queue.specs.Rest.{left_in};
ghost use Rattle.sdl_run_outcome.specs.Lists.{held_in};
ghost use Rattle.sdl_run_outcome.specs.Outcome.{Outcome};
ghost use Rattle.sdl_run_ledger.specs.Counts.{IsLedgerOf, CountsFit, Adds, CanAdd, summed, of_event, of_counts, of_output, of_hand, of_rest};

use sdl_block_hand::Hand;
use sdl_instances_log::{Counts, LogStore};
use sdl_queue::Rest;
use sdl_routes::Station;
use sdl_run_outcome::EnvOut;
use sdl_signal::Item;

/// The count of every signal of a run (this project's own). Of these counts,
/// `output = no_route + entered + no_instance + gone + left` and
/// `entered = fired + implicit + stopped + waiting + environment`.
#[derive(Clone, Copy, Debug, Default, PartialEq, Eq)]
pub struct Ledger {
    /// All outputs, of blocks and of the environment.
    pub output: u64,
    /// The outputs that no route fits.
    pub no_route: u64,
    /// The signals that entered an input port, or were received by the environment.
    pub entered: u64,
    /// The signals that were discarded since their set had no living instance.
    pub no_instance: u64,
    /// The signals that were discarded since the instance that TO named did not live.
    pub gone: u64,
    /// The signals that are still in a queue or in a hand.
    pub left: u64,
    /// The signals that were consumed by a row.
    pub fired: u64,
    /// The signals that were consumed by the implicit transition.
    pub implicit: u64,
    /// The signals that were in the port of an instance when it stopped.
    pub stopped: u64,
    /// The signals that are still in an input port.
    pub waiting: u64,
    /// The signals that the environment received.
    pub environment: u64,
}

impl Ledger {
    /// The ledger of what a run left: the logs of its blocks, stored or counted, the outputs of the environment and what it
    /// received; what the workers hold, what rests at the stations, and how many signals wait in the ports. No memory is taken.
    pub fn of<K: LogStore>(
        logs: &[K],
        counts: &[Counts],
        env_put: &[EnvOut],
        env_received: &[Item],
        hands: &[Hand],
        rests: &[(Station, Rest)],
        waiting: u64,
    ) -> Ledger
        requires long { length counts.now ≡ length logs.now }
        requires counts { AllZip (λ log c. AreCountsOf (K.events log) c) logs.now counts.now }
        requires fits { CountsFit (record { logs = map K.events logs.now; env_put = env_put.now; env_received = env_received.now; hands = map held_in hands.now; rests = lists_of rests.now }) }
        ensures { IsLedgerOf (record { logs = map K.events logs.now; env_put = env_put.now; env_received = env_received.now; hands = map held_in hands.now; rests = lists_of rests.now }) waiting result }
    {
        let received = env_received.len() as u64;
        let mut ledger = Ledger {
            entered: received,
            waiting,
            environment: received,
            ..Ledger::default()
        };
        for number in 0..logs.len() {
            ledger.add_log(&logs[number], &counts[number]);
        }
        ledger.add_outputs(env_put);
        ledger.add_hands(hands);
        ledger.add_rests(rests);
        ledger
    }

    /// Adds what was counted of a log.
    fn add_log<K: LogStore>(&mut self, _log: &K, counts: &Counts)
        requires counts { AreCountsOf (K.events _log.now) counts.now }
        requires fits { CanAdd self.old (summed of_event (K.events _log.now)) }
        ensures { Adds self.old (summed of_event (K.events _log.now)) self.new }
    {
        self.add_counts(counts);
    }

    fn add_counts(&mut self, counts: &Counts)
        requires { CanAdd self.old (of_counts counts.now) }
        ensures { Adds self.old (of_counts counts.now) self.new }
    {
        self.output += counts.output as u64;
        self.no_route += counts.no_route as u64;
        self.entered += counts.entered as u64;
        self.no_instance += counts.no_instance as u64;
        self.gone += counts.gone as u64;
        self.fired += counts.fired as u64;
        self.implicit += counts.implicit as u64;
        self.stopped += counts.stopped as u64;
    }

    fn add_outputs(&mut self, outputs: &[EnvOut])
        requires { CanAdd self.old (summed of_output outputs.now) }
        ensures { Adds self.old (summed of_output outputs.now) self.new }
    {
        for output in outputs {
            self.output += 1;
            if let EnvOut::NoRoute(_, _) = output {
                self.no_route += 1;
            }
        }
    }

    fn add_hands(&mut self, hands: &[Hand])
        requires { CanAdd self.old (summed (λ h. of_hand (held_in h)) hands.now) }
        ensures { Adds self.old (summed (λ h. of_hand (held_in h)) hands.now) self.new }
    {
        for hand in hands {
            if hand.kept.is_some() {
                self.left += 1;
            }
            self.left += hand.outgoing.len() as u64;
        }
    }

    fn add_rests(&mut self, rests: &[(Station, Rest)])
        requires { CanAdd self.old (summed (λ r. of_rest (r.0, left_in r.1)) rests.now) }
        ensures { Adds self.old (summed (λ r. of_rest (r.0, left_in r.1)) rests.now) self.new }
    {
        for rest in rests {
            self.left += rest.1.len() as u64;
        }
    }
}
