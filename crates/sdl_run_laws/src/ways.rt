//! What holds of the ends that an opening gives each worker. These functions do nothing: they carry the proofs.
ghost use Rattle.std.specs.Prelude.{◌≡◌, ℕ, List, Some, slice_get};
ghost use Rattle.sdl_signal.specs.declared.ids.BlockId.{BlockId};
ghost use Rattle.sdl_structure_parts.specs.Structure.{Structure};
ghost use Rattle.sdl_routes.specs.declared.route.Hop.{Hop};
ghost use Rattle.sdl_routes.specs.declared.route.Station.{Station};
ghost use Rattle.sdl_routes.specs.declared.route.TableRow.{TableRow};
ghost use Rattle.sdl_instances.specs.Core.{sets_of};
ghost use Rattle.sdl_instances.specs.Machine.{System};
ghost use Rattle.sdl_forward_ends.specs.Ends.{WorkerEnds, IsSameEnds, AreFresh};
ghost use Rattle.sdl_forward_ends.specs.Ways.{HasGateWays};
ghost use Rattle.sdl_forward.specs.Carries.{HasWaysOn};
ghost use Rattle.sdl_block_hand.specs.Apart.{HasOwnWays};
ghost use Rattle.sdl_forward_opening.specs.declared.worker.Worker.{Worker};
ghost use Rattle.sdl_forward_opening.specs.declared.worker.Worker.TheVariants.{Block, Environment, Forwarder};
ghost use Rattle.sdl_forward_opening.specs.Workers.{workers_in};
ghost use Rattle.sdl_forward_opening.specs.Opens.{AreOpen, ends_of};

/// The ends of each block have a feed at the first station of each route that starts at one of its sets.
pub fn blocks_have_their_ways()
    ensures { (s : Structure) (rows : List TableRow) (all : List WorkerEnds) (shelf : List (Station × ℕ)) (sys : System) (block : BlockId) → AreOpen s rows all shelf → sys.routes ≡ rows → sys.sets ≡ sets_of s
        → HasOwnWays sys block (ends_of (workers_in s) all (Block block)) }
{}

/// The ends of each forwarder have a feed wherever an item can lead on from its path.
pub fn forwarders_have_their_ways()
    ensures { (s : Structure) (rows : List TableRow) (all : List WorkerEnds) (shelf : List (Station × ℕ)) (hop : Hop) → AreOpen s rows all shelf
        → HasWaysOn rows hop (ends_of (workers_in s) all (Forwarder hop)) }
{}

/// The ends of the environment have a feed at the first station of each route that starts at a gate of the system.
pub fn gates_have_their_ways()
    ensures { (s : Structure) (rows : List TableRow) (all : List WorkerEnds) (shelf : List (Station × ℕ)) → AreOpen s rows all shelf
        → HasGateWays rows (ends_of (workers_in s) all Environment) }
{}

/// Nothing was put or taken by the ends of any worker.
pub fn opened_ends_are_fresh()
    ensures { (s : Structure) (rows : List TableRow) (all : List WorkerEnds) (shelf : List (Station × ℕ)) (w : Worker) → AreOpen s rows all shelf
        → AreFresh (ends_of (workers_in s) all w) }
{}

/// The ends stand in the order of the workers: those at a worker's place are its own.
pub fn each_worker_has_its_ends()
    ensures { (s : Structure) (all : List WorkerEnds) (k : ℕ) (w : Worker) (e : WorkerEnds) → slice_get (workers_in s) k ≡ Some w → slice_get all k ≡ Some e
        → ends_of (workers_in s) all w ≡ e }
{}

/// However the ends are used, they keep their ways.
pub fn used_ends_keep_their_ways()
    ensures blocks { (sys : System) (block : BlockId) (old new : WorkerEnds) → IsSameEnds old new → HasOwnWays sys block old → HasOwnWays sys block new }
    ensures forwarders { (rows : List TableRow) (hop : Hop) (old new : WorkerEnds) → IsSameEnds old new → HasWaysOn rows hop old → HasWaysOn rows hop new }
    ensures gates { (rows : List TableRow) (old new : WorkerEnds) → IsSameEnds old new → HasGateWays rows old → HasGateWays rows new }
{}
