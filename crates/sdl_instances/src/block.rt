//! The core of a block: its instances with its log, and the behaviours of its sets.
ghost use Rattle.std.specs.Prelude.{◌≡◌, List, ◌≤◌, ◌++◌, ◌∷◌, ◌<◌, ◌%◌, ◌^◌, ◌-◌, [], IfOk, IfErr, IsSome, IfSome, None};
ghost use Rattle.std.specs.Option.{ForSome};
ghost use Rattle.sdl_signal.specs.declared.ids.SetId.{SetId};
ghost use Rattle.sdl_signal.specs.declared.values.Pid.{Pid};
ghost use Rattle.sdl_instances.specs.Legal.{GoesTo, IsOfSet};
ghost use Rattle.sdl_instances_log.specs.Counts.{AreCountsOf};
ghost use Rattle.sdl_instances_log.specs.declared.event.Arrival.TheVariants as arrival;
ghost use Rattle.sdl_instances.specs.Machine.{Arrives, number_living};
ghost use Rattle.std.specs.Prelude.{IsTrue, ◌↔◌};
ghost use Rattle.sdl_instances.specs.Core.{IsReady, arrival_event, IsLivingAt, IsLegalIn, IsSound, IsBoundIn, signals_of, sets_of};
ghost use Rattle.sdl_instances.specs.Run.{turns, waiting, initial};
ghost use Rattle.sdl_transition.specs.Rules.{block_rules};
ghost use Rattle.sdl_routes.specs.declared.route.TableRow.{TableRow};

use crate::ready::Look;
use crate::table::Table;
use sdl_instances_log::{Arrival, Counts, Event, LogStore};
use sdl_routes::Routes;
use sdl_signal::Item;
use sdl_structure_parts::Checked;
use sdl_transition::{Agents, BlockParts, Step};
use std::alloc::{AllocError, Global};

/// The instances of a block with their input ports, the log of all that happened to them, and the behaviours of the
/// block's sets.
#[derive(Drop)]
pub struct BlockCore<S, K: LogStore = Vec<Event>> {
    pub(crate) table: Table<K>,
    pub(crate) parts: BlockParts<S>,
    /// What the last transition answered, as far as the log has not taken it. The step stays, so that none is made for each turn.
    /// In a box, so that a worker is handed on without it.
    pub(crate) step: Box<Step>,
}

impl<S: Agents, K: LogStore> BlockCore<S, K> {
    ghost use Rattle.std.specs.Prelude.{OnOk, OnErr, Some};
    ghost use Rattle.sdl_signal.specs.declared.values.Item.{Item};
    ghost use Rattle.sdl_instances.specs.CoreOf.{core_of, parts_of, system_in};
    ghost use Rattle.sdl_instances.specs.Calls.{LeavesOthers};

    /// The initial instances of the block, its sets in order and none of them started. `budget` is the number of turns
    /// that the block may have. A refusal hands the parts back.
    pub fn new(
        alloc: Global,
        parts: BlockParts<S>,
        checked: &Checked,
        budget: u32,
    ) -> Result<BlockCore<S, K>, (BlockParts<S>, AllocError)>
        requires budget { (1 ≤ budget) × (budget ≤ 1000000) }
        requires bound { IsBoundIn (signals_of checked.now) (sets_of checked.now) (block_rules parts) parts.block }
        ensures initial { IfOk result (λ c. core_of c ≡ record { block = parts.block; signals = signals_of checked.now; sets = sets_of checked.now; state = initial (block_rules parts) (sets_of checked.now) parts.block; log = []; budget = budget }) }
        ensures sound { IfOk result (λ c. (routes : List TableRow) → IsSound S.may (system_in c routes) (core_of c)) }
        ensures parts { IfOk result (λ c. parts_of c ≡ parts) }
        ensures err { IfErr result (λ e. e.0 ≡ parts) }
    {
        let structure = checked.structure();
        structure.parts_agree();
        let Ok(step) = Box::new(alloc, Step::blank()) else {
            return Err((parts, AllocError));
        };
        match Table::first(alloc, &parts, structure, budget) {
            Ok(table) => Ok(BlockCore { table, parts, step }),
            Err(_) => Err((parts, AllocError)),
        }
    }

    /// Lets the item that the slot has arrive. It enters the port of the instance that its output named. Where none was named, it
    /// enters that of the living one of the set at the route's end at `pick` modulo their number, in order of creation. It is
    /// discarded where there is none. The slot is left empty, but for a refusal, which changes nothing. The instance is found
    /// without a scan over the living ones.
    #[inline(always)]
    pub fn arrive_from(
        &mut self,
        routes: &Routes,
        slot: &mut Option<Item>,
        pick: u32,
    ) -> Result<Arrival, AllocError>
        requires item { IsSome slot.old }
        requires stamp { ForSome slot.old (λ item. item.stamp < 2 ^ 64 - 1) }
        requires legal { ForSome slot.old (IsLegalIn (system_in self.old routes.now)) }
        requires sound { IsSound S.may (system_in self.old routes.now) (core_of self.old) }
        requires ends_here { ForSome slot.old (λ item. (set : SetId) × GoesTo routes.now item set × ((p : Pid) → item.to ≡ Some p → IsOfSet set p)) }
        ensures arrives { IfOk result (λ a. IfSome slot.old (λ item. Arrives routes.now (core_of self.old).state item a (core_of self.new).state)) }
        ensures log { IfOk result (λ a. IfSome slot.old (λ item. (core_of self.new).log ≡ (core_of self.old).log ++ arrival_event item a ∷ [])) }
        ensures picked { IfSome slot.old (λ item. (set : SetId) (p : Pid) → GoesTo routes.now item set → item.to ≡ None → result ≡ Ok (arrival.Entered p) → IsLivingAt set (core_of self.old).state (pick % number_living set (core_of self.old).state) p) }
        ensures emptied { OnOk result (slot.new ≡ None) }
        ensures sound { IfOk result (λ _. IsSound S.may (system_in self.old routes.now) (core_of self.new)) }
        ensures rest { LeavesOthers (core_of self.old) (core_of self.new) }
        ensures parts { parts_of self.new ≡ parts_of self.old }
        ensures err { OnErr result ((slot.new ≡ slot.old) × (core_of self.new ≡ core_of self.old)) }
    {
        self.table.arrive_from(routes, slot, pick)
    }

    /// The number of signals in all ports. No memory is taken.
    pub fn left_in_ports(&self) -> u64
        ensures { result ≡ waiting (core_of self.now).state.living }
    {
        self.table.left_in_ports()
    }

    /// Whether no instance is ready for a turn. No memory is taken.
    pub fn is_settled(&self) -> bool
        ensures { IsTrue result ↔ ((p : Pid) → IsReady p (core_of self.now).state → ⊥) }
    {
        match self.table.look(0) {
            Look::Idle => true,
            Look::Spent => false,
            Look::Next(_) => false,
        }
    }

    /// The number of turns so far. No memory is taken.
    pub fn made(&self) -> u32
        ensures { result ≡ turns (core_of self.now).log }
    {
        self.table.made()
    }

    /// The log so far, the earliest event first. No memory is taken.
    pub fn log(&self) -> &K
        ensures { K.events result.now ≡ (core_of self.now).log }
    {
        self.table.log()
    }

    /// What became of the block's signals, counted along its log. No memory is taken.
    pub fn counts(&self) -> Counts
        ensures { AreCountsOf (core_of self.now).log result }
    {
        self.table.counts()
    }

    /// The parts of the block, the log, and the number of signals in all ports. No memory is taken.
    pub fn into_parts(self) -> (BlockParts<S>, K, u64)
        ensures parts { result.0 ≡ parts_of self }
        ensures log { K.events result.1 ≡ (core_of self).log }
        ensures left { result.2 ≡ waiting (core_of self).state.living }
    {
        let left = self.table.left_in_ports();
        (self.parts, self.table.into_log(), left)
    }
}
