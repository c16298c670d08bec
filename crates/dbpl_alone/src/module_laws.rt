// Laws of the modules that can be run so far. The functions do nothing: their contracts are the laws.
ghost use Rattle.std.specs.Prelude.{◌≡◌, ℕ, List, Some};
ghost use Rattle.dbpl_alone.specs.Modules.{IsModule, IsRefused};
ghost use Rattle.dbpl_alone.specs.Program.{IsSmall, spell_module};
ghost use Rattle.dbpl_alone.specs.Small.{small_of};
ghost use Rattle.dbpl_alone.specs.Units.{unit_of};
ghost use Rattle.dbpl_alone.specs.declared.program.Program.{Program};
ghost use Rattle.dbpl_base.specs.Scans.{lexemes_of};
ghost use Rattle.dbpl_base.specs.declared.place.Place.{Place};
ghost use Rattle.dbpl_base.specs.declared.token.Token.{Token};
ghost use Rattle.dbpl_scan.specs.Comments.{Scans};
ghost use Rattle.dbpl_tree.specs.Units.{spell};
ghost use Rattle.dbpl_tree.specs.declared.unit.Unit.{Unit as Tree};

/// A text has one answer: it is one module, or it is refused at one place by one rule.
pub fn one_answer()
    ensures module { (text : List ℕ) (first second : Program) → IsModule text first → IsModule text second → first ≡ second }
    ensures either { (text : List ℕ) (program : Program) (place : Place) (rule : ℕ) → IsModule text program → ¬ IsRefused text place rule }
    ensures refusal { (text : List ℕ) (place other : Place) (rule another : ℕ) → IsRefused text place rule → IsRefused text other another → (place ≡ other) × (rule ≡ another) }
{}

/// The trees that are such modules are those with their spellings, and so are their texts. The places in a tree are free.
pub fn one_form()
    ensures found { (place : Place) (program : Program) → IsSmall program → small_of (unit_of place program) ≡ Some program }
    ensures small { (unit : Tree) (program : Program) → small_of unit ≡ Some program → IsSmall program }
    ensures spelled { (unit : Tree) (program : Program) → small_of unit ≡ Some program → spell unit ≡ spell_module program }
    ensures spelling { (place : Place) (program : Program) → spell (unit_of place program) ≡ spell_module program }
    ensures texts { (text : List ℕ) (tokens : List Token) (program : Program) → IsSmall program → Scans 0 text tokens → lexemes_of tokens ≡ spell_module program → IsModule text program }
{}
