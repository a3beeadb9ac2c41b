//! What the steps of a block through its own ends keep, from the first on. These functions do nothing: they carry the proofs.
ghost use Rattle.std.specs.Prelude.{◌≡◌, []};
ghost use Rattle.sdl_forward_ends.specs.Ends.{WorkerEnds};
ghost use Rattle.sdl_instances.specs.Machine.{System};
ghost use Rattle.sdl_instances.specs.Core.{Core, IsSound};
ghost use Rattle.sdl_block_hand.specs.Work.{Working, with_core};
ghost use Rattle.sdl_block_hand.specs.Apart.{AreFresh, HasOwnWays, IsPuttingOut, HasPutOut};

use sdl_transition::Agents;

/// It holds of a new block with fresh ends, which have a feed wherever a route from one of its sets begins.
pub fn new_blocks_are_putting_out<S: Agents>()
    ensures { (sys : System) (c : Core) (ends : WorkerEnds) → IsSound S.may sys c → c.log ≡ [] → AreFresh ends → HasOwnWays sys c.block ends → IsPuttingOut S.may sys (with_core c) ends }
{}

/// And whenever it holds, what was taken has arrived, but what is kept, and what was sent was put, but what is in hand; and the
/// log is a run with no more turns than the budget.
pub fn blocks_have_put_out<S: Agents>()
    ensures { (sys : System) (w : Working) (ends : WorkerEnds) → IsPuttingOut S.may sys w ends → HasPutOut S.may sys w ends }
{}
