//! The outputs of the environment: what becomes of the lines that were read.
ghost use Rattle.std.specs.Prelude.{◌≡◌, ◌<◌, ◌++◌, length};
ghost use Rattle.sdl_run_outcome.specs.EnvironmentWork.{IsOutputOf, sent_of, goal_to};
ghost use Rattle.sdl_run_environment.specs.EnvPicks.{IsRoutedAt};

use sdl_block_hand::Hand;
use sdl_instances::copies::copied_item;
use sdl_instances::goal_at;
use sdl_routes::{Goal, Routes, Source, Via, Wish};
use sdl_run_outcome::EnvOut;
use sdl_signal::{EnvLine, Item, Origin, Pid};

/// Takes into the hand what of an output goes along a route.
pub fn send(hand: &mut Hand, out: &EnvOut)
    requires { length hand.old.outgoing.items < 8 }
    ensures outgoing { hand.new.outgoing.items ≡ hand.old.outgoing.items ++ sent_of out.now }
    ensures kept { hand.new.kept ≡ hand.old.kept }
{
    match out {
        EnvOut::Sent(item) => hand.outgoing.push(copied_item(item)),
        EnvOut::NoRoute(_, _) => {}
    }
}

/// The goal that the TO part of a line names.
fn goal_to(to: Option<Pid>) -> Goal
    ensures { result ≡ goal_to to }
{
    match to {
        None => Goal::Anywhere,
        Some(pid) => goal_at(pid),
    }
}

/// The output of a line: along the fitting route at this pick, or none fits.
pub fn output_of(routes: &Routes, pick: u32, origin: Origin, line: EnvLine) -> EnvOut
    ensures output { IsOutputOf routes.now origin.worker origin.number line result }
    ensures routed { IsRoutedAt routes.now pick line result }
{
    let wish = Wish {
        source: Source::Gate(line.gate),
        signal: line.signal.id,
        goal: goal_to(line.to),
        via: Via::Any,
    };
    match routes.choose(&wish, pick) {
        Some(route) => EnvOut::Sent(Item {
            origin,
            stamp: 0,
            signal: line.signal,
            sender: Pid::Env,
            to: line.to,
            route,
        }),
        None => EnvOut::NoRoute(origin, line),
    }
}
