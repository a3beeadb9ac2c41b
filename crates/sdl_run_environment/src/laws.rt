//! What holds of the environment's reading and writing from one step to the next. The functions do nothing: they carry the
//! proofs.
ghost use Rattle.std.specs.Prelude.{ℕ, List, Option, None, All};
ghost use Rattle.sdl_signal.specs.declared.values.Item.{Item};
ghost use Rattle.sdl_structure_parts.specs.Structure.{Structure};
ghost use Rattle.sdl_routes.specs.declared.route.TableRow.{TableRow};
ghost use Rattle.sdl_routes.specs.declared.route.Station.{Station};
ghost use Rattle.sdl_routes.specs.Routes.{AreRoutesOf};
ghost use Rattle.sdl_routes.specs.declared.route.Station.TheVariants.{Outlet};
ghost use Rattle.sdl_forward_ends.specs.Ends.{WorkerEnds};
ghost use Rattle.sdl_forward.specs.Boards.{waiting};
ghost use Rattle.sdl_block_hand.specs.declared.hand.Stepped.{Stepped};
ghost use Rattle.sdl_block_hand.specs.Apart.{AreFresh};
ghost use Rattle.sdl_run_outcome.specs.EnvironmentWork.{EnvWorking, IsEnvFresh, IsEnvSound, IsLegalItem, GoesOut, EnvStepsAs, HasReadSoFar, HasReadAll, HasWrittenSoFar, input_end};
ghost use Rattle.sdl_run_environment.specs.EnvApart.{HasGateWays, IsEnvPuttingOut};

/// Wherever a run stops, what was read so far is the whole reading: each line gave one output. (This function does nothing: it
/// carries the proof.)
pub fn stops_reading()
    ensures { (structure : Structure) (routes : List TableRow) (worker : ℕ) (start now : Option (List ℕ)) (w : EnvWorking) → IsEnvSound structure routes worker w
        → HasReadSoFar structure routes worker start now w → HasReadAll structure routes worker start now w.put (input_end w) }
{}

/// Before anything was read, nothing was read or written, and a step can be made. After a step the next one can be made, and what
/// waits in the outlet may leave there. (This function does nothing: it carries the proof.)
pub fn goes_on()
    ensures read { (structure : Structure) (routes : List TableRow) (worker : ℕ) (start : Option (List ℕ)) (w : EnvWorking) → IsEnvFresh worker w → HasReadSoFar structure routes worker start start w }
    ensures written { (structure : Structure) (routes : List TableRow) (worker : ℕ) (start : Option (List ℕ)) (w : EnvWorking) → IsEnvFresh worker w → HasWrittenSoFar structure routes worker start start w }
    ensures sound { (structure : Structure) (routes : List TableRow) (worker : ℕ) (w : EnvWorking) → IsEnvFresh worker w → IsEnvSound structure routes worker w }
    ensures again { (structure : Structure) (routes : List TableRow) (worker : ℕ) (old : EnvWorking) (before : List (Station × List Item)) (answer : Stepped) (new : EnvWorking) (after : List (Station × List Item))
        → EnvStepsAs structure routes worker old before answer new after → IsEnvSound structure routes worker old → IsEnvSound structure routes worker new }
    ensures outlet { (structure : Structure) (routes : List TableRow) (worker : ℕ) (old : EnvWorking) (before : List (Station × List Item)) (answer : Stepped) (new : EnvWorking) (after : List (Station × List Item))
        → EnvStepsAs structure routes worker old before answer new after → AreRoutesOf structure routes → IsEnvSound structure routes worker old
        → All (λ i. IsLegalItem structure routes worker i × GoesOut routes i) (waiting before Outlet) → All (λ i. IsLegalItem structure routes worker i × GoesOut routes i) (waiting after Outlet) }
{}

/// Before anything was read, the steps through ends of its own can begin, with nothing astray. Nothing was put or taken by these
/// ends, and they have a feed wherever a route from a gate begins. (This function does nothing: it carries the proof.)
pub fn new_environments_are_putting_out()
    ensures { (structure : Structure) (routes : List TableRow) (worker : ℕ) (w : EnvWorking) (ends : WorkerEnds) → IsEnvFresh worker w → AreFresh ends → HasGateWays routes ends
        → IsEnvPuttingOut structure routes worker w None ends }
{}
