// The law of requests, the contract of a function that does nothing.
ghost use Rattle.std.specs.Prelude.{◌≡◌, ℕ, List};
ghost use Rattle.dbpl_words.specs.Asked.{Asked, Asks};

/// One list of words asks for one thing.
pub fn one_request()
    ensures one { (words : List (List ℕ)) (asked other : Asked) → Asks words asked → Asks words other → asked ≡ other }
{}
