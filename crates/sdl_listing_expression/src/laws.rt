//! A law of expressions. The function does nothing: it carries the proof.
ghost use Rattle.std.specs.Prelude.{◌≡◌};
ghost use Rattle.sdl_signal.specs.Sorts.{sort_of};
ghost use Rattle.sdl_transition_behaviour.specs.Offers.{IsLegalValue};
ghost use Rattle.sdl_listing_expression.specs.declared.syntax.Expr.{Expr};
ghost use Rattle.sdl_listing_expression.specs.Scene.{Scene};
ghost use Rattle.sdl_listing_expression.specs.Sorted.{Scope, sort_in, IsSorted, IsLegalScene};
ghost use Rattle.sdl_listing_expression.specs.Values.{evaluate};

/// The value of an expression that has its sorts is of its sort. Where each Pid that the scene shows can be one, so can each in
/// the value.
pub fn values_keep_their_sorts()
    ensures sorts { (scope : Scope) (s : Scene) (e : Expr) → IsSorted scope e → sort_of (evaluate s e) ≡ sort_in e }
    ensures legal { (scope : Scope) (s : Scene) (e : Expr) → IsLegalScene scope.sets s → IsSorted scope e → IsLegalValue scope.sets (evaluate s e) }
{}
