//! What the steps of a forwarder through its own ends keep, from the first on. These functions do nothing: they carry the proofs.
ghost use Rattle.std.specs.Prelude.{◌≡◌, List, None};
ghost use Rattle.sdl_routes.specs.declared.route.TableRow.{TableRow};
ghost use Rattle.sdl_forward_ends.specs.Ends.{WorkerEnds, IsSameEnds};
ghost use Rattle.sdl_forward.specs.declared.forwarder.Forwarded.{Forwarded};
ghost use Rattle.sdl_forward.specs.Forwards.{Forwarding};
ghost use Rattle.sdl_forward.specs.Carries.{Carries, HasWaysOn};
ghost use Rattle.sdl_forward.specs.HandsOn.{AreFresh, IsHandingOn, HasHandedOn};

/// It holds of a forwarder that holds nothing, with fresh ends, which have a feed wherever an item can lead on from its path.
pub fn new_forwarders_are_handing_on()
    ensures { (rows : List TableRow) (forwarder : Forwarding) (ends : WorkerEnds) → forwarder.held ≡ None → AreFresh ends → HasWaysOn rows forwarder.hop ends → IsHandingOn rows forwarder ends }
{}

/// Each step keeps it, and keeps the path.
pub fn forwarders_stay_handing_on()
    ensures keeps { (rows : List TableRow) (was is : Forwarding) (old new : WorkerEnds) (answer : Forwarded) → IsHandingOn rows was old → Carries rows was old answer is new → IsSameEnds old new → IsHandingOn rows is new }
    ensures path { (rows : List TableRow) (was is : Forwarding) (old new : WorkerEnds) (answer : Forwarded) → Carries rows was old answer is new → is.hop ≡ was.hop }
{}

/// And whenever it holds, the following is so at each station. What was put there, and then the held item where its next
/// station is that one, are those of the items taken whose next station is that one. Each item taken has a next station, or
/// is held.
pub fn forwarders_have_handed_on()
    ensures { (rows : List TableRow) (forwarder : Forwarding) (ends : WorkerEnds) → IsHandingOn rows forwarder ends → HasHandedOn rows forwarder ends }
{}
