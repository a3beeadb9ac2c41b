//! What holds when all threads are joined. These functions do nothing: they carry the proofs.
ghost use Rattle.std.specs.Prelude.{◌≡◌, ℕ, List, [], ◌∷◌, Option, Some, None, length, map, slice_get};
ghost use Rattle.std.specs.List.{AllByRecursion};
ghost use Rattle.sdl_signal.specs.declared.values.Item.{Item};
ghost use Rattle.sdl_structure_parts.specs.Structure.{Structure};
ghost use Rattle.sdl_routes.specs.declared.route.TableRow.{TableRow};
ghost use Rattle.sdl_routes.specs.declared.route.Station.{Station};
ghost use Rattle.sdl_routes.specs.declared.route.Station.TheVariants.{Outlet};
ghost use Rattle.sdl_routes.specs.Routes.{EachOnce};
ghost use Rattle.sdl_queue.specs.declared.rest.Rest.{Rest};
ghost use Rattle.sdl_queue.specs.Ends.{Account, items_of};
ghost use Rattle.sdl_forward_ends.specs.Stations.{stations_of};
ghost use Rattle.sdl_forward_ends.specs.Ends.{WorkerEnds, IsSameEnds, AreRejoined};
ghost use Rattle.sdl_forward_opening.specs.declared.worker.Worker.{Worker};
ghost use Rattle.sdl_forward_opening.specs.Workers.{Ways, IsAgent};
ghost use Rattle.sdl_forward_opening.specs.Opens.{AreOwnEnds, AreOpen, ends_of};
ghost use Rattle.sdl_forward_opening.specs.Used.{AreUsed};
ghost use Rattle.sdl_forward.specs.Boards.{waiting, lists_of};
ghost use Rattle.sdl_run_outcome.specs.Stations.{AreWays};
ghost use Rattle.sdl_run_outcome.specs.Books.{Books, InOrder, standing};
ghost use Rattle.sdl_run_outcome.specs.Plan.{Plan, IsPlan, MayTravel, ways_of};
ghost use Rattle.sdl_run_order.specs.Driver.{Site, IsAtWork};
ghost use Rattle.sdl_run_join.specs.Lanes.{IsLane, account_at};
ghost use Rattle.sdl_run_join.specs.Joins.{Joined, IsJoined};
ghost use Rattle.sdl_run_join.specs.Rows.{tagged, two_feeders, with_left};
ghost use Rattle.sdl_run_join.specs.Back.{HaveComeBack, AreNew};

use sdl_transition::Agents;

/// What each worker put and took, and the queues that were put together again, give the order along each route.
pub fn keeps_order()
    ensures { (t : Ways) (ends : Worker → WorkerEnds) (accounts : Station → Account) (b : Books) → AreWays t → Joined t ends accounts b → InOrder t b }
{}

/// Where all that was sent may travel, so may all that is still on its way.
pub fn stays_legal()
    ensures { (plan : Plan) (b : Books) → IsPlan plan → InOrder (ways_of plan) b → ((w : Worker) → IsAgent w → AllByRecursion (MayTravel plan) (b.sent w)) → (s : Station) → AllByRecursion (MayTravel plan) (standing b s) }
{}

/// The queues that were put together again are lanes between the workers, where each worker has its own ends.
pub fn rejoined_are_lanes()
    ensures lanes { (workers : List Worker) (all : List WorkerEnds) (stations : List Station) (rests : List (Station × Rest)) → EachOnce workers → length all ≡ length workers
        → ((w : Worker) → AreOwnEnds stations w (ends_of workers all w)) → AreRejoined all stations rests → (s : Station) → IsLane (ends_of workers all) s (account_at rests s) }
    ensures left { (all : List WorkerEnds) (stations : List Station) (rests : List (Station × Rest)) → AreRejoined all stations rests → (s : Station) → waiting (lists_of rests) s ≡ items_of (account_at rests s).left }
    ensures stations { (all : List WorkerEnds) (stations : List Station) (rests : List (Station × Rest)) → AreRejoined all stations rests → stations_of (lists_of rests) ≡ stations }
{}

/// Two blocks put an item each at the outlet, and the second was taken: the first is left there. That nothing is left is no account
/// of it, nor that there is a further item which neither put.
pub fn lanes_lose_nothing()
    ensures left { (i j : Item) → IsLane (two_feeders i j) Outlet (with_left j (tagged 0 i ∷ [])) }
    ensures lost { (i j : Item) → IsLane (two_feeders i j) Outlet (with_left j []) → ⊥ }
    ensures more { (i j k : Item) → IsLane (two_feeders i j) Outlet (with_left j (tagged 0 i ∷ tagged 2 k ∷ [])) → ⊥ }
{}

/// Where all threads are joined, all holds that holds between two steps on one thread, and nothing went astray.
pub fn stands_joined<S: Agents>()
    ensures work { (plan : Plan) (site : Site) (astray : Option Item) (ends : Worker → WorkerEnds) (accounts : Station → Account) → IsPlan plan → IsJoined S.may plan site astray ends accounts → IsAtWork S.may plan site }
    ensures none { (plan : Plan) (site : Site) (astray : Option Item) (ends : Worker → WorkerEnds) (accounts : Station → Account) → IsPlan plan → IsJoined S.may plan site astray ends accounts → astray ≡ None }
{}

/// The ends of a run were opened for its routes. Each worker came back with its own ends and with what its steps keep. All queues
/// were put together again. Then the workers and what is left stand as between two steps on one thread, and nothing went astray.
pub fn joined_workers_stand<S: Agents>()
    ensures work { (plan : Plan) (site : Site) (astray : Option Item) (all now : List WorkerEnds) (shelf : List (Station × ℕ)) (rests : List (Station × Rest)) → IsPlan plan
        → AreOpen plan.structure plan.routes all shelf → AreUsed all now → AreRejoined now (map (λ (x : Station × ℕ). x.0) shelf) rests
        → site.board ≡ lists_of rests → HaveComeBack S.may plan site astray now → IsAtWork S.may plan site }
    ensures none { (plan : Plan) (site : Site) (astray : Option Item) (all now : List WorkerEnds) (shelf : List (Station × ℕ)) (rests : List (Station × Rest)) → IsPlan plan
        → AreOpen plan.structure plan.routes all shelf → AreUsed all now → AreRejoined now (map (λ (x : Station × ℕ). x.0) shelf) rests
        → site.board ≡ lists_of rests → HaveComeBack S.may plan site astray now → astray ≡ None }
{}

/// Before the first step each worker keeps what its steps keep, with the ends that were opened for it, and nothing is astray. Where
/// all ends come back unused, the queues can be put together again, and nothing is left in them.
pub fn new_workers_keep<S: Agents>()
    ensures keep { (plan : Plan) (site : Site) (all : List WorkerEnds) (shelf : List (Station × ℕ)) → IsPlan plan
        → AreOpen plan.structure plan.routes all shelf → AreNew S.may plan site → HaveComeBack S.may plan site None all }
    ensures used { (all : List WorkerEnds) → AreUsed all all }
    ensures rests { (structure : Structure) (routes : List TableRow) (all : List WorkerEnds) (shelf : List (Station × ℕ)) → AreOpen structure routes all shelf
        → (rests : List (Station × Rest)) × AreRejoined all (map (λ (x : Station × ℕ). x.0) shelf) rests × ((s : Station) → waiting (lists_of rests) s ≡ []) }
{}

/// Where the worker at each place still has the ends that it had, whatever it put and took since, so have they all.
pub fn own_ends_are_used()
    ensures { (all now : List WorkerEnds) → length now ≡ length all
        → ((k : ℕ) (e f : WorkerEnds) → slice_get all k ≡ Some e → slice_get now k ≡ Some f → IsSameEnds e f) → AreUsed all now }
{}
