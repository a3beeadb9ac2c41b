//! What a thread knows of its worker, and how the worker comes back.
pub use sdl_block_hand::Stepped;
use sdl_forward_ends::Marks;
use sdl_routes::Routes;
use sdl_structure_parts::Structure;
use std::sync::Wait;

/// Something that makes steps in a system. `keeps` is what each of its steps asks and gives back, in a system of this structure
/// and these routes. `same` says which worker it is, whatever its steps did. `station` is where it takes. `empty_handed` says that
/// nothing is in its hand: all that it took or sent has gone on.
pub trait Work {
    ghost use Rattle.std.specs.Prelude.{◌≡◌, ◌≢◌, List};
    ghost use Rattle.sdl_structure_parts.specs.Structure.{Structure};
    ghost use Rattle.sdl_routes.specs.declared.route.TableRow.{TableRow};
    ghost use Rattle.sdl_routes.specs.declared.route.Station.{Station};
    ghost use Rattle.sdl_forward_ends.specs.Marks as marks;
    ghost use Rattle.sdl_block_hand.specs.declared.hand.Stepped.TheVariants.{Memory};

    ghost keeps: { Structure → List TableRow → Self → Type 0 };

    ghost same: { Self → Self → Type 0 };

    ghost station: { Self → Station };

    ghost empty_handed: { Self → Type 0 };

    /// Moves on what still waits for room at the rings where it puts, and says whether nothing of it is left. It is called before
    /// each step, and whoever has something left is not at rest. Takes no memory, and waits for nobody.
    fn flush(&mut self) -> bool
        ensures keeps { (structure : Structure) (routes : List TableRow) → keeps structure routes self.old → keeps structure routes self.new }
        ensures same { same self.old self.new }
        ensures hand { empty_handed self.old → empty_handed self.new };

    /// A step. `pick` chooses wherever the worker may choose. Where it may not ask, it waits for nobody outside the system,
    /// and does what it can without: this is a hint, and no claim rests on it. Only after a refusal is anything in its hand. May wait
    /// for other threads.
    fn step<R: Wait>(
        &mut self,
        rt: &R,
        structure: &Structure,
        routes: &Routes,
        pick: u32,
        may_ask: bool,
    ) -> Stepped
        requires { keeps structure.now routes.now self.old }
        ensures keeps { keeps structure.now routes.now self.new }
        ensures same { same self.old self.new }
        ensures hand { result ≢ Memory → empty_handed self.old → empty_handed self.new };

    /// Whether its next step would ask somebody outside the system, and could wait long for an answer. It is a hint.
    fn asks_outside(&self) -> bool;

    /// The mark of the station where it takes, whether or not anything comes there. By it the worker is woken, and told apart
    /// from the others where it comes to rest.
    fn mark(&self) -> u32
        ensures { result ≡ marks.mark (station self.now) };

    /// The marks of the stations where something came to lie since this was asked last. It is a hint, by which those that take there
    /// are woken.
    fn touched(&mut self) -> Marks
        ensures keeps { (structure : Structure) (routes : List TableRow) → keeps structure routes self.old → keeps structure routes self.new }
        ensures same { same self.old self.new }
        ensures hand { empty_handed self.old → empty_handed self.new };

    /// How many items it put. It is a hint, by which it is told how far the worker is ahead of those that take there.
    fn puts(&self) -> u64;

    /// Whether it has made as many turns as it may. It is a hint, after which all workers are told to stop: no claim rests on
    /// it.
    fn is_spent(&self) -> bool;

    ghost itself: { (w : Self) → same w w };

    ghost and_then: { (u v w : Self) → same u v → same v w → same u w };
}

/// A worker that came back.
#[derive(Drop)]
pub enum Returned<W> {
    /// It made steps until it was told to stop. Nothing is in its hand, where nothing was before.
    Ran(W),
    /// Memory was refused to its last step.
    Refused(W),
    /// Its thread could not start. It made no step.
    NotStarted(W),
}
