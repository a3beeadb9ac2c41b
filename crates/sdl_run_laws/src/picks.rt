//! What a pick chooses, written out: which instance of Spawn a signal enters and which makes a turn, which route a line takes, and
//! which workers of Echo a schedule names. These functions do nothing: they carry the proofs.
ghost use Rattle.std.specs.Prelude.{◌≡◌, [], ◌∷◌};
ghost use Rattle.sdl_instances_log.specs.declared.event.Event.TheVariants as event;
ghost use Rattle.sdl_instances.specs.Machine.{State};
ghost use Rattle.sdl_instances.specs.Spawn.{spawn, spawn_may, boss, kid, all_started, at_first, starts};
ghost use Rattle.sdl_block.specs.Picks.{ArrivesAt, TurnsAt};
ghost use Rattle.sdl_run_environment.specs.EnvPicks.{IsRoutedAt};
ghost use Rattle.sdl_run_driver.specs.Runs.{scheduled};
ghost use Rattle.sdl_run_laws.specs.Echo.{plan};
ghost use Rattle.sdl_run_laws.specs.Picks.{ask, in_state, second_has_it, third_started, two_ways, line, along};

/// A signal for any Kid, of which two live, enters the second one at pick 1. That it entered the first is no arrival at that pick.
pub fn arrivals_take_their_pick()
    ensures second { ArrivesAt spawn.routes 1 (in_state all_started []) (in_state second_has_it (event.Entered ask (kid 2) ∷ [])) }
    ensures not_the_first { (new : State) → ArrivesAt spawn.routes 1 (in_state all_started []) (in_state new (event.Entered ask (kid 1) ∷ [])) → ⊥ }
{}

/// Of three instances that have not started, the third starts at pick 5. That the first did is no turn at that pick.
pub fn turns_take_their_pick()
    ensures third { TurnsAt spawn_may spawn 5 (in_state at_first []) (in_state third_started (starts (kid 2) ∷ [])) }
    ensures not_the_first { (new : State) → TurnsAt spawn_may spawn 5 (in_state at_first []) (in_state new (starts boss ∷ [])) → ⊥ }
{}

/// The output of a line for which two routes fit takes the second at pick 3, and not the first.
pub fn lines_take_their_pick()
    ensures second { IsRoutedAt two_ways 3 line (along 1) }
    ensures not_the_first { IsRoutedAt two_ways 3 line (along 0) → ⊥ }
{}

/// Echo has six workers. The number 13 of a schedule names worker 1 at pick 2. 0 names worker 0 at pick 0, and 8 worker 2 at pick
/// 1.
pub fn schedules_name_workers_and_picks()
    ensures { scheduled plan (13 ∷ 0 ∷ 8 ∷ []) ≡ (1, 2) ∷ (0, 0) ∷ (2, 1) ∷ [] }
{}
