//! What a run leaves where its driver stops.
ghost use Rattle.std.specs.Prelude.{◌≡◌, ℕ, List, Option, ◌+◌, ◌<◌, [], length, map, MatchOption};
ghost use Rattle.sdl_run_outcome.specs.Plan.{blocks_in, workers_of};
ghost use Rattle.sdl_run_outcome.specs.EnvironmentWork.{HasReadSoFar, HasWrittenSoFar};
ghost use Rattle.sdl_run_order.specs.Driver.{IsIdle, outcome_of};
ghost use Rattle.sdl_run_driver.specs.Closings.{HasRoom, HasReadIn, HasWrittenIn, StopsByMemory, NamesRefused, outcome_in};
ghost use Rattle.sdl_run_driver.specs.Ended.{HasEnded};
ghost use Rattle.sdl_run_driver.specs.Drivers.{site_of, IsDriving};
ghost use Rattle.sdl_run_driver.specs.Systems.{plan_of, IsOneSystem, IsSystemOf};

use crate::closing::{Closing, Room};
use crate::driver::Driver;
use crate::parked::Parked;
use sdl_instances_log::LogStore;
use sdl_transition::Agents;

impl<S: Agents, K: LogStore> Driver<S, K> {
    /// Takes the driver apart where the run stops. The worker is the one that was refused memory.
    pub fn close(self, room: Room<S, K>, refused: Option<u32>) -> Closing<S, K>
        requires driving { IsDriving S.may self }
        requires system { IsOneSystem S.may self.system }
        requires room { HasRoom (length self.system.blocks.items) (length self.system.blocks.items + (length self.forwarders.items + 1)) room }
        requires empty { (room.parts.items ≡ []) × (room.logs.items ≡ []) × (room.hands.items ≡ []) }
        requires refused { MatchOption refused (IsIdle (site_of self)) (λ w. w < length (workers_of (plan_of self.system))) }
        ensures ended { HasEnded S.may (plan_of self.system) (outcome_in K.events result) result.end result.ledger }
        // What the environment has read and written by then is all that it reads and writes.
        ensures reading { (start now : Option (List ℕ)) → HasReadSoFar self.system.checked self.system.routes (blocks_in (plan_of self.system)) start now self.environment → HasReadIn (plan_of self.system) start now result }
        ensures writing { (start now : Option (List ℕ)) → HasWrittenSoFar self.system.checked self.system.routes (blocks_in (plan_of self.system)) start now self.environment → HasWrittenIn (plan_of self.system) start now result }
        ensures stopped { StopsByMemory result.input result.end }
        ensures left { outcome_in K.events result ≡ outcome_of (site_of self) }
        ensures refusal { NamesRefused result.end refused }
        ensures bound { IsSystemOf self.system result.bound }
    {
        let parked = Parked {
            system: self.system,
            environment: self.environment,
            forwarders: self.forwarders,
            rests: self.board.into_rests(),
        };
        parked.close(room, refused)
    }
}
