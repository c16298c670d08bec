//! The law of texts and units. The function does nothing: its contract is the law.
ghost use Rattle.std.specs.Prelude.{◌≡◌, ℕ, List};
ghost use Rattle.dbpl_base.specs.declared.place.Place.{Place};
ghost use Rattle.dbpl_front.specs.Texts.{IsMisspelt, SpellsText};
ghost use Rattle.dbpl_tree.specs.declared.unit.Unit.{Unit as Tree};

/// A text spells one unit, or it is refused at one place by one rule.
pub fn one_unit()
    ensures unit { (number : ℕ) (text : List ℕ) (first second : Tree) → SpellsText number text first → SpellsText number text second → first ≡ second }
    ensures either { (number : ℕ) (text : List ℕ) (unit : Tree) (place : Place) (rule : ℕ) → SpellsText number text unit → ¬ IsMisspelt number text place rule }
    ensures refusal { (number : ℕ) (text : List ℕ) (place other : Place) (rule another : ℕ) → IsMisspelt number text place rule → IsMisspelt number text other another → (place ≡ other) × (rule ≡ another) }
{}
