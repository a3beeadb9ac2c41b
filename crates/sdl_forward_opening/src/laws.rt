//! What holds of all ends however they were used. These functions do nothing: they carry the proofs.
ghost use Rattle.std.specs.Prelude.{◌≡◌, ◌≤◌, List, ℕ, length, map};
ghost use Rattle.std.specs.List.{AllByRecursion};
ghost use Rattle.sdl_structure_parts.specs.Structure.{Structure, IsStructure};
ghost use Rattle.sdl_routes.specs.declared.route.Station.{Station};
ghost use Rattle.sdl_routes.specs.declared.route.TableRow.{TableRow};
ghost use Rattle.sdl_routes.specs.Routes.{EachOnce};
ghost use Rattle.sdl_forward_ends.specs.Ends.{WorkerEnds, column, AreAllEndsOf};
ghost use Rattle.sdl_forward_opening.specs.Opens.{AreOpen};
ghost use Rattle.sdl_forward_opening.specs.Used.{AreUsed};
ghost use Rattle.sdl_forward_opening.specs.Workers.{mark_at, workers_in};

/// However the ends of an opening were used, they are still all ends of its queues. Each station has one, and there is room for
/// them: they can be rejoined.
pub fn used_ends_come_back()
    ensures once { (s : Structure) (rows : List TableRow) (all : List WorkerEnds) (shelf : List (Station × ℕ)) → AreOpen s rows all shelf → EachOnce (map (λ (x : Station × ℕ). x.0) shelf) }
    ensures whole { (s : Structure) (rows : List TableRow) (all now : List WorkerEnds) (shelf : List (Station × ℕ)) → AreOpen s rows all shelf → AreUsed all now
        → AreAllEndsOf (map (λ (x : Station × ℕ). x.0) shelf) now }
    ensures room { (s : Structure) (rows : List TableRow) (all now : List WorkerEnds) (shelf : List (Station × ℕ)) → AreOpen s rows all shelf → AreUsed all now
        → AllByRecursion (λ (x : Station × ℕ). length (column x.0 now) ≤ x.1) shelf }
{}

/// No two workers of a structure have one mark, whether or not a route leads to the stations that they take from: the word by
/// which a worker is woken, and comes to rest, is its own.
pub fn no_two_workers_have_one_mark()
    ensures { (s : Structure) → IsStructure s → EachOnce (map mark_at (workers_in s)) }
{}
