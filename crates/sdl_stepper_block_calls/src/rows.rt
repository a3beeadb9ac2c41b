//! Behaviours with the rows for some signals alone. All else is left to the implicit transition.
ghost use Rattle.std.specs.List.{AllByRecursion};
ghost use Rattle.sdl_transition.specs.Transitions.{IsAllowedBehaviour};

use sdl_signal::SignalId;
use sdl_transition::{Agents, Behaviour, Row};

/// Whether the row is for one of the signals.
fn is_for<S>(row: &Row<S>, signals: &[SignalId]) -> bool {
    signals.contains(&row.signal)
}

/// Takes the rows for all but the signals out of the behaviour.
fn keep_in<S: Agents>(behaviour: &mut Behaviour<S>, signals: &[SignalId])
    requires { IsAllowedBehaviour S.may behaviour.old }
    ensures { IsAllowedBehaviour S.may behaviour.new }
{
    behaviour.rows.retain(|row| is_for(row, signals));
}

/// Takes the rows for all but the signals out of each behaviour. Where there are no signals, all rows stay.
pub fn keep_rows<S: Agents>(behaviours: &mut Vec<Behaviour<S>>, signals: &[SignalId])
    requires { AllByRecursion (IsAllowedBehaviour S.may) behaviours.old.items }
    ensures { AllByRecursion (IsAllowedBehaviour S.may) behaviours.new.items }
{
    if signals.is_empty() {
        return;
    }
    for behaviour in behaviours.iter_mut() {
        keep_in(behaviour, signals);
    }
}
