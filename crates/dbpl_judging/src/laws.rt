//! Laws of the least breach, each the contract of a function that does nothing.
ghost use Rattle.std.specs.Prelude.{◌≡◌, ◌≢◌, ◌++◌, false, [], List, IfSome, IsSome};
ghost use Rattle.std.specs.List.{All, Contains};
ghost use Rattle.dbpl_base.specs.Order.{is_before};
ghost use Rattle.dbpl_base.specs.declared.refusal.Refusal.{Refusal};
ghost use Rattle.dbpl_judging.specs.Checking.{Checking, least, noting};

/// The least of several breaches is one of them, and none of them is before it.
pub fn least_breach()
    ensures one { (breaches : List Refusal) → IfSome (least breaches) (Contains breaches) }
    ensures first { (breaches : List Refusal) → IfSome (least breaches) (λ found. All (λ breach. is_before breach found ≡ false) breaches) }
{}

/// Two lists of breaches that are noted one after the other are noted as one.
pub fn noting_lists()
    ensures { (breaches others : List Refusal) (checker : Checking) → noting (breaches ++ others) checker ≡ noting others (noting breaches checker) }
{}

/// Where a phrase is refused, there is a breach to report.
pub fn refused_by_one()
    ensures { (breaches : List Refusal) → breaches ≢ [] → IsSome (least breaches) }
{}
