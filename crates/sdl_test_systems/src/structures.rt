//! A structure text as a test uses it.
ghost use Rattle.std.specs.Prelude.{IfOk};
ghost use Rattle.std.specs.List.{AllByRecursion};
ghost use Rattle.sdl_routes.specs.Routes.{AreRoutesOf};
ghost use Rattle.sdl_transition.specs.Bound.{IsBound};
ghost use Rattle.sdl_transition.specs.Transitions.{IsAllowedBehaviour};

use crate::stop::Stop;
use sdl_routes::Routes;
use sdl_structure::read_structure;
use sdl_structure_parts::{Checked, check};
use sdl_transition::{Agents, Behaviour, Bound, bind};
use std::alloc::Global;

/// The structure that the text names, which is well formed, and its routes.
pub fn routes_of(alloc: Global, text: &str) -> Result<(Checked, Routes), Stop>
    ensures { IfOk result (λ both. AreRoutesOf both.0 both.1) }
{
    let structure = read_structure(alloc, text)?;
    let checked = check(structure).ok().ok_or("not well formed")?;
    let routes = Routes::build(alloc, &checked)?;
    Ok((checked, routes))
}

/// The behaviours, which fit it, bound to the structure that the text names.
pub fn bind_to<S: Agents + Drop>(
    alloc: Global,
    text: &str,
    behaviours: Vec<Behaviour<S>>,
) -> Result<Bound<S>, Stop>
    requires { AllByRecursion (IsAllowedBehaviour S.may) behaviours.items }
    ensures { IfOk result (IsBound S.may) }
{
    let (checked, routes) = routes_of(alloc, text)?;
    match bind(alloc, checked, routes, behaviours) {
        Ok(bound) => Ok(bound),
        Err(unbound) => Err(Stop::from(unbound.fault)),
    }
}
