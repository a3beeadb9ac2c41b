//! What the actions of a transition do.
ghost use Rattle.std.specs.Prelude.{◌≡◌, ◌+◌, ◌<◌, ◌≤◌, ◌^◌, ◌++◌, ◌∷◌, [], ℕ, List, Some, length};
ghost use Rattle.sdl_signal.specs.declared.values.Pid.{Pid};
ghost use Rattle.sdl_signal.specs.declared.values.Sort.{Sort};
ghost use Rattle.sdl_instances_processes.specs.Record.{Record};
ghost use Rattle.sdl_transition.specs.Rules.{block_rules};
ghost use Rattle.sdl_transition.specs.Index.{IsIndexed};
ghost use Rattle.sdl_instances.specs.Machine.{Does, set_of};
ghost use Rattle.sdl_instances.specs.Living.{state_of, creatable_of, StandsAt, CanAct, CanCarryOut, CarriesOut, TakesAt, system_with, output_stamp_after};
ghost use Rattle.sdl_instances_log.specs.declared.event.Done.{Done};
ghost use Rattle.std.specs.List.{AllByRecursion, flat_map};
ghost use Rattle.sdl_instances.specs.Run.{origin_by, sent_by};

use crate::living::Living;
use crate::outputs::OutputStamp;
use crate::process_set::ProcessSet;
use arrayvec::ArrayVec;
use sdl_instances_log::Done;
use sdl_instances_processes::copies::add_values;
use sdl_routes::Routes;
use sdl_signal::{Item, Signal};
use sdl_transition::{Action, Agents, BlockParts};

/// The instance that makes a turn: its place among the living ones, the behaviours of its block, and the routes of the
/// structure.
#[derive(Drop)]
pub struct Actor<'a, S> {
    pub routes: &'a Routes,
    pub parts: &'a BlockParts<S>,
    pub place: usize,
}

/// Carries out an action of the actor, adds what it did, and answers with the stamp of the next output.
#[inline(always)]
fn act<S: Agents>(
    living: &mut Living,
    sets: &[ProcessSet],
    actor: &Actor<S>,
    action: &Action,
    output_stamp: OutputStamp,
    done: &mut ArrayVec<Done, 8>,
) -> OutputStamp
    requires indexed { IsIndexed actor.now.parts.now }
    requires ready { CanCarryOut sets.now actor.now.place 1 (creatable_of living.old) (state_of living.old) }
    requires creatable { CanAct sets.now (block_rules actor.now.parts.now) action.now }
    requires room { length done.old.items + 1 ≤ 8 }
    requires numbers { output_stamp.origin.number + 1 < 2 ^ 64 }
    ensures does { (d : Done) × (done.new.items ≡ done.old.items ++ d ∷ []) × (result ≡ output_stamp_after output_stamp d) × CarriesOut S.may sets.now actor.now.routes.now (block_rules actor.now.parts.now) actor.now.place output_stamp (action.now ∷ []) done.old.items (done.old.items ++ d ∷ []) (state_of living.old) (state_of living.new) }
    ensures ready { (n : ℕ) → CanCarryOut sets.now actor.now.place (n + 1) (creatable_of living.old) (state_of living.old) → CanCarryOut sets.now actor.now.place n (creatable_of living.new) (state_of living.new) }
{
    match action {
        Action::Output { signal, dest, via } => {
            living.output(
                actor.routes,
                actor.place,
                signal,
                *dest,
                *via,
                output_stamp,
                done,
            );
            output_stamp.next()
        }
        Action::Create(set) => {
            let vars = actor.parts.variables(*set);
            let saves = actor.parts.saves(*set);
            done.push(Done::Made(living.create(sets, actor.place, *set, vars, saves)));
            output_stamp
        }
    }
}

/// Carries out the actions of the actor, in order, and adds what each did.
#[inline(always)]
pub fn act_all<S: Agents>(
    living: &mut Living,
    sets: &[ProcessSet],
    actor: &Actor<S>,
    actions: &[Action],
    output_stamp: OutputStamp,
    done: &mut ArrayVec<Done, 8>,
)
    requires indexed { IsIndexed actor.now.parts.now }
    requires ready { CanCarryOut sets.now actor.now.place (length actions.now) (creatable_of living.old) (state_of living.old) }
    requires creatable { AllByRecursion (CanAct sets.now (block_rules actor.now.parts.now)) actions.now }
    requires room { length done.old.items + length actions.now ≤ 8 }
    requires numbers { output_stamp.origin.number + length actions.now < 2 ^ 64 }
    ensures { CarriesOut S.may sets.now actor.now.routes.now (block_rules actor.now.parts.now) actor.now.place output_stamp actions.now done.old.items done.new.items (state_of living.old) (state_of living.new) }
{
    if let Some((action, rest)) = actions.split_first() {
        let next = act(living, sets, actor, action, output_stamp, done);
        // (mostly there is one action, and no call is made for none)
        if !rest.is_empty() {
            act_all(living, sets, actor, rest, next, done);
        }
    }
}

/// Adds a copy of the item, whose values are written where they are to stand.
#[inline(always)]
fn add_copy(sent: &mut ArrayVec<Item, 8>, item: &Item)
    requires { length sent.old.items + 1 ≤ 8 }
    ensures { sent.new.items ≡ sent.old.items ++ item.now ∷ [] }
{
    sent.push(Item {
        origin: item.origin,
        stamp: item.stamp,
        signal: Signal {
            id: item.signal.id,
            params: ArrayVec::new(),
        },
        sender: item.sender,
        to: item.to,
        route: item.route,
    });
    let place = sent.len() - 1;
    add_values(
        &mut sent[place].signal.params,
        item.signal.params.as_slice(),
    );
}

/// Adds the items that were sent, in order, and says how many outputs there were, those that no route fits included.
#[inline(always)]
pub fn add_sent(done: &[Done], sent: &mut ArrayVec<Item, 8>) -> u64
    requires { length sent.old.items + length done.now ≤ 8 }
    ensures items { sent.new.items ≡ sent.old.items ++ flat_map sent_by done.now }
    ensures counted { result ≡ length (flat_map origin_by done.now) }
    ensures few { result ≤ length done.now }
{
    let Some((one, rest)) = done.split_first() else {
        return 0;
    };
    let output = match one {
        Done::Sent(item) => {
            add_copy(sent, item);
            1
        }
        Done::NoRoute(_, _) => 1,
        Done::Made(_) => 0,
    };
    output + add_sent(rest, sent)
}
