// Laws of the meaning, each the contract of a function that does nothing.
ghost use Rattle.std.specs.Prelude.{◌≡◌, ◌≤◌, ◌+◌, ◌++◌, ℕ, suc, ℤ, Bool, false, true, List, [], ◌∷◌, Option, Some, slice_get};
ghost use Rattle.dbpl_base.specs.declared.limits.TheConstants.{OPEN_CALLS};
ghost use Rattle.dbpl_base.specs.declared.place.Place.{Place as AnyPlace};
ghost use Rattle.dbpl_core.specs.Events.{Event};
ghost use Rattle.dbpl_core.specs.declared.cell.Cell.{Cell as AnyCell};
ghost use Rattle.dbpl_core.specs.declared.control_of.CoreControlOf.{CoreControlOf};
ghost use Rattle.dbpl_core.specs.declared.expr.CoreExpr.{CoreExpr as Expr, CoreExpr-F, out-CoreExpr, roll-CoreExpr};
ghost use Rattle.dbpl_core.specs.declared.program.Program.{Program as AnyProgram};
ghost use Rattle.dbpl_core.specs.declared.stmt.CoreStmtOf.{CoreStmtOf as StmtOf, CoreStmtOf-F, out-CoreStmtOf, roll-CoreStmtOf};
ghost use Rattle.dbpl_core.specs.declared.unit.CoreUnit.{CoreUnit as AnyUnit};
ghost use Rattle.dbpl_meaning.specs.Expressions.{Calls, meaning_of, value_level, value_of};
ghost use Rattle.dbpl_meaning.specs.Loops.{IsFor, IsLoop, IsRepeat, IsWhile};
ghost use Rattle.dbpl_meaning.specs.Meaning.{begun, bodies, body_and_then, calls_at, leaves, limit, meaning, named_does, runs};
ghost use Rattle.dbpl_meaning.specs.Meaning as whole;
ghost use Rattle.dbpl_meaning.specs.State.{Doing, Going, State, Stops, state_in};
ghost use Rattle.dbpl_meaning.specs.Statements.{condition, does, does_level, goes_on_to, round, round_until, round_with};
ghost use Rattle.dbpl_meaning.specs.Words.{Unrolls, gives, nothing, traps, turn};
ghost use Rattle.dbpl_value.specs.declared.bound.Bound.{Bound};

/// More turns only add events, input that is taken, and work; and a run that has come to an end stays exactly as it is.
pub fn meaning_is_steady()
    ensures extends { (program : AnyProgram) (database : List Bound) (input : List ℕ) (turns others : ℕ) → (rest : List Event) × ((meaning program database input (turns + others)).events ≡ (meaning program database input turns).events ++ rest) }
    ensures takes { (program : AnyProgram) (database : List Bound) (input : List ℕ) (turns others : ℕ) → (taken : List ℕ) × ((meaning program database input turns).input ≡ taken ++ (meaning program database input (turns + others)).input) }
    ensures works { (program : AnyProgram) (database : List Bound) (input : List ℕ) (turns others : ℕ) → (meaning program database input turns).work ≤ (meaning program database input (turns + others)).work }
    ensures stays { (program : AnyProgram) (database : List Bound) (input : List ℕ) (turns others : ℕ) → ((meaning program database input turns).stands ≡ whole.Going → ⊥) → meaning program database input (turns + others) ≡ meaning program database input turns }
{}

/// A turn begins only where one is left, and then one less is left and one more work is done. WHILE, REPEAT, LOOP and FOR are
/// their test, and where that says so a turn and the loop again. No phrase leaves more turns than there were, and the turns
/// that a run used are no more than its work: within n turns at most n calls and turns of loops begin.
pub fn loops_take_turns()
    ensures none { (doing : Doing (Unit {0})) (state : State) → state.left ≡ 0 → turn doing state ≡ Stops Going state }
    ensures one { (doing : Doing (Unit {0})) (state : State) (left : ℕ) → state.left ≡ suc left → turn doing state ≡ doing (record state { left = left; work = state.work + 1 }) }
    ensures while_unrolls { (program : AnyProgram) (room : ℕ) (e : Expr) (body : List (StmtOf Expr)) → Unrolls (λ before. condition program (calls_at program room) e) (round (does program (calls_at program room)) body) (tt {0}) }
    ensures repeat_unrolls { (program : AnyProgram) (room : ℕ) (body : List (StmtOf Expr)) (e : Expr) (again : Bool) → Unrolls gives (round_until program (calls_at program room) (does program (calls_at program room)) body e) again }
    ensures loop_unrolls { (program : AnyProgram) (room : ℕ) (body : List (StmtOf Expr)) → Unrolls (λ before. gives true) (round (does program (calls_at program room)) body) (tt {0}) }
    ensures for_unrolls { (program : AnyProgram) (room : ℕ) (control : CoreControlOf Expr) (last by : ℤ) (body : List (StmtOf Expr)) (n : ℤ) → Unrolls (λ n. gives (goes_on_to last by n)) (round_with program (calls_at program room) (does program (calls_at program room)) control by body) n }
    ensures while_turns { (program : AnyProgram) (room : ℕ) (place : AnyPlace) (e : Expr) (body : List (StmtOf Expr)) → IsWhile program (calls_at program room) place e body }
    ensures repeat_turns { (program : AnyProgram) (room : ℕ) (place : AnyPlace) (body : List (StmtOf Expr)) (e : Expr) → IsRepeat program (calls_at program room) place body e }
    ensures loop_turns { (program : AnyProgram) (room : ℕ) (place : AnyPlace) (body : List (StmtOf Expr)) → IsLoop program (calls_at program room) place body }
    ensures for_turns { (program : AnyProgram) (room : ℕ) (place : AnyPlace) (control : CoreControlOf Expr) (from to : Expr) (by : Option ℤ) (body : List (StmtOf Expr)) → IsFor program (calls_at program room) place control from to by body }
    ensures left_by_expressions { (program : AnyProgram) (room : ℕ) (e : Expr) (state : State) → (state_in (value_of program (calls_at program room) e state)).left ≤ state.left }
    ensures left_by_statements { (program : AnyProgram) (room : ℕ) (s : StmtOf Expr) (state : State) → (state_in (does program (calls_at program room) s state)).left ≤ state.left }
    ensures left { (program : AnyProgram) (database : List Bound) (input : List ℕ) (turns : ℕ) → (state_in (runs program database input turns)).left ≤ turns }
    ensures paid { (program : AnyProgram) (database : List Bound) (input : List ℕ) (turns : ℕ) → turns ≤ (state_in (runs program database input turns)).left + (state_in (runs program database input turns)).work }
{}

/// A call is a turn in which one call less may be open, and trap 7 where none may be. So is the body of a module, which is the
/// first that is open.
pub fn calls_are_limited()
    ensures limit { limit ≡ OPEN_CALLS }
    ensures none { (program : AnyProgram) (place : AnyPlace) (owner name : List ℕ) (cells : List AnyCell) → (calls_at program 0).routine place owner name cells ≡ traps 7 place }
    ensures none_of_in_out { (program : AnyProgram) (place : AnyPlace) (doing : Doing (Unit {0})) → (calls_at program 0).in_out place doing ≡ traps 7 place }
    ensures one { (program : AnyProgram) (room : ℕ) (place : AnyPlace) (owner name : List ℕ) (cells : List AnyCell) → (calls_at program (suc room)).routine place owner name cells ≡ turn (named_does program (calls_at program room) owner name cells) }
    ensures one_of_in_out { (program : AnyProgram) (room : ℕ) (place : AnyPlace) (doing : Doing (Unit {0})) → (calls_at program (suc room)).in_out place doing ≡ turn doing }
    ensures whole { (program : AnyProgram) (database : List Bound) (input : List ℕ) (turns : ℕ) → runs program database input turns ≡ bodies program program.order (begun program database input turns) }
    ensures no_body { (program : AnyProgram) → bodies program [] ≡ nothing }
    ensures body { (program : AnyProgram) (room number : ℕ) (numbers : List ℕ) (unit : AnyUnit) → limit ≡ suc room → slice_get program.units number ≡ Some unit → bodies program (number ∷ numbers) ≡ body_and_then program room unit numbers }
{}

/// Neither EXIT nor RETURN leads out of a routine, or out of a module's body.
pub fn leaving_ends_at_routines()
    ensures calls { (program : AnyProgram) (room : ℕ) (place : AnyPlace) (owner name : List ℕ) (cells : List AnyCell) (state : State) → leaves ((calls_at program room).routine place owner name cells state) ≡ false }
    ensures whole { (program : AnyProgram) (database : List Bound) (input : List ℕ) (turns : ℕ) → leaves (runs program database input turns) ≡ false }
{}

/// What an expression or a statement means is its row, whether it is taken apart or made.
pub fn meaning_by_rows()
    ensures expression { (program : AnyProgram) (calls : Calls) (e : Expr) → value_of program calls e ≡ value_level program (meaning_of program calls) calls (out-CoreExpr e) }
    ensures expression_made { (program : AnyProgram) (calls : Calls) (level : CoreExpr-F Expr) → value_of program calls (roll-CoreExpr level) ≡ value_level program (meaning_of program calls) calls level }
    ensures statement { (program : AnyProgram) (calls : Calls) (s : StmtOf Expr) → does program calls s ≡ does_level program calls (does program calls) (out-CoreStmtOf Expr s) }
    ensures statement_made { (program : AnyProgram) (calls : Calls) (level : CoreStmtOf-F Expr (StmtOf Expr)) → does program calls (roll-CoreStmtOf Expr level) ≡ does_level program calls (does program calls) level }
{}
