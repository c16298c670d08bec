// Laws of scopes, each the contract of a function that does nothing.
ghost use Rattle.std.specs.Prelude.{◌≡◌, ℕ, List, IfSome};
ghost use Rattle.dbpl_symbols.specs.InOutNames.{in_out_exports};
ghost use Rattle.dbpl_symbols.specs.Interfaces.{interface_of, shown};
ghost use Rattle.dbpl_symbols.specs.Known.{IsKnown, IsKnownDecl, IsKnownItself, ShowsKnown};
ghost use Rattle.dbpl_symbols.specs.Scopes.{Declarations, with_level, left, seen};
ghost use Rattle.dbpl_symbols.specs.StandardNames.{standard_scope};
ghost use Rattle.dbpl_symbols.specs.declared.exports.Exports.{Exports as AnyExports};
ghost use Rattle.dbpl_symbols.specs.declared.pair.Pair.{Pair as AnyPair};

/// Leaving a level gives the scope as it was when the level was entered, whatever was declared at it.
pub fn entered_and_left()
    ensures { (scope : Declarations) (more : List AnyPair) → left (with_level more scope) ≡ scope }
{}

/// What every text knows is known: the standard names, and what InOut shows.
pub fn first_names_are_known()
    ensures standard { IsKnown standard_scope }
    ensures in_out { ShowsKnown in_out_exports }
{}

/// In a scope that is known a name means what is known, and so does a name behind that of a unit; and what a unit shows
/// of a scope that is known is known.
pub fn known_names()
    ensures seen { (scope : Declarations) → IsKnown scope → (name : List ℕ) → IfSome (seen name scope) IsKnownDecl }
    ensures shown { (unit : AnyExports) → ShowsKnown unit → (name : List ℕ) → IfSome (shown name unit) IsKnownItself }
    ensures interface { (unit : List ℕ) (scope : Declarations) → IsKnown scope → ShowsKnown (interface_of unit scope) }
{}
