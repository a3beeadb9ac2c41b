//! Finding all routes of a structure, in their order.
ghost use Rattle.std.specs.Prelude.{◌≡◌, ℕ, ◌+◌, ◌*◌, ◌^◌, ◌<◌, ◌≤◌, [], ◌∷◌, ◌++◌, length, IfOk, IfErr, OnOk, OnErr, IsErrOf, ◌↔◌};
ghost use Rattle.sdl_structure_parts.specs.Structure.{IsStructure};
ghost use Rattle.sdl_structure_parts.specs.Rules.{IsWellFormed};
ghost use Rattle.sdl_routes.specs.Routes.{HasTooMany, IsWalk, hop_number, place, AreRoutesOf};
ghost use Rattle.sdl_routes.specs.Found.{place_behind};
ghost use Rattle.sdl_routes.specs.Collected.{HasCollected, AddsRoute};

use crate::hops::{carries, last_joins};
use crate::route::{Hop, TableRow};
use crate::rows::{copied, may_start, row_of};
use crate::table::RouteFault;
use arrayvec::ArrayVec;
use sdl_signal::{ChannelId, SignalId};
use sdl_structure_parts::Structure;
use std::alloc::Global;

/// The most routes of a table.
pub const MOST_ROUTES: usize = 4096;

/// The routes found so far. Each is counted, also where memory for it was refused.
#[derive(Drop)]
pub struct Collected {
    rows: Vec<TableRow>,
    count: usize,
    refused: bool,
}

impl Collected {
    /// Adds a route. From the first refusal on routes are only counted.
    fn add(&mut self, row: TableRow) -> Result<(), RouteFault>
        ensures ok { OnOk result (AddsRoute self.old row self.new × (self.old.count < 4096)) }
        ensures full { IfErr result (λ fault. (fault ≡ RouteFault.TooMany) × (4096 ≤ self.old.count)) }
    {
        if self.count >= MOST_ROUTES {
            return Err(RouteFault::TooMany);
        }
        self.count += 1;
        if !self.refused {
            match self.rows.push(row) {
                Ok(()) => {}
                Err(_) => self.refused = true,
            }
        }
        Ok(())
    }
}

impl Hop {
    /// The hop of this number: the channels in order, each forth before back.
    pub fn numbered(number: usize) -> Hop
        requires { number < 2 ^ 32 }
        ensures { hop_number result ≡ number }
    {
        Hop {
            channel: ChannelId((number / 2) as u32),
            back: number % 2 == 1,
        }
    }
}

/// The hops with one more.
fn with_hop(hops: &[Hop], hop: Hop) -> ArrayVec<Hop, 9>
    requires { length hops.now < 9 }
    ensures { result.items ≡ hops.now ++ hop ∷ [] }
{
    let mut longer = copied(hops);
    longer.push(hop);
    longer
}

/// Adds the routes that begin with these hops to the routes before them. As each signal that reaches a block's gate goes further,
/// each of these walks is the beginning of a route.
fn extend(
    structure: &Structure,
    signal: SignalId,
    hops: &[Hop],
    collected: &mut Collected,
) -> Result<(), RouteFault>
    requires structure { IsStructure structure.now }
    requires well_formed { IsWellFormed structure.now }
    requires walk { IsWalk structure.now signal hops.now }
    requires found { HasCollected structure.now (place signal hops.now) collected.old }
    ensures found { OnOk result (HasCollected structure.now (place_behind (place signal hops.now)) collected.new) }
    ensures too_many { IfErr result (λ fault. (fault ≡ RouteFault.TooMany) × HasTooMany structure.now) }
{
    if let Some(row) = row_of(structure, signal, hops) {
        return collected.add(row);
    }
    let end = 2 * structure.channels().len();
    for number in 0..end {
        let hop = Hop::numbered(number);
        if last_joins(structure, hops, hop) && carries(structure, signal, hop) {
            let longer = with_hop(hops, hop);
            extend(structure, signal, longer.as_slice(), collected)?;
        }
    }
    Ok(())
}

/// All routes of the structure, in their order.
pub fn all_routes(alloc: Global, structure: &Structure) -> Result<Vec<TableRow>, RouteFault>
    requires structure { IsStructure structure.now }
    requires well_formed { IsWellFormed structure.now }
    ensures ok { IfOk result (λ rows. AreRoutesOf structure.now rows.items × (length rows.items ≤ 4096)) }
    ensures too_many { IsErrOf result RouteFault.TooMany ↔ HasTooMany structure.now }
{
    let mut collected = Collected {
        rows: Vec::new(alloc),
        count: 0,
        refused: false,
    };
    let signals = structure.signals().len();
    let end = 2 * structure.channels().len();
    for signal_number in 0..signals {
        let signal = SignalId(signal_number as u32);
        for number in 0..end {
            let hop = Hop::numbered(number);
            if may_start(structure, hop) && carries(structure, signal, hop) {
                extend(structure, signal, &[hop], &mut collected)?;
            }
        }
    }
    if collected.refused {
        return Err(RouteFault::Memory);
    }
    Ok(collected.rows)
}
