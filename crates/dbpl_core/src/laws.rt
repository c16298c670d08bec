// Laws of the tree, of stores and of events, each the contract of a function that does nothing.
ghost use Rattle.std.specs.Prelude.{◌≡◌, ◌++◌, ℕ, List};
ghost use Rattle.dbpl_core.specs.Events.{Event, last, prints};
ghost use Rattle.dbpl_core.specs.Phrases.{expr_phrases, phrases_in, phrases_of, stmt_phrases};
ghost use Rattle.dbpl_core.specs.Stores.{Store, closes, opens, says};
ghost use Rattle.dbpl_core.specs.declared.cell.Cell.{Cell as AnyCell};
ghost use Rattle.dbpl_core.specs.declared.expr.CoreExpr.{CoreExpr as Expr, CoreExpr-F, out-CoreExpr, roll-CoreExpr};
ghost use Rattle.dbpl_core.specs.declared.stmt.CoreStmtOf.{CoreStmtOf as StmtOf, CoreStmtOf-F, out-CoreStmtOf, roll-CoreStmtOf};
ghost use Rattle.dbpl_value.specs.declared.bound.Bound.{Bound};

/// The phrases of an expression are its own and those of the expressions in it, whether it is taken apart or made; and so
/// are those of a statement.
pub fn phrases_by_levels()
    ensures expression { (e : Expr) → phrases_of e ≡ expr_phrases phrases_of (out-CoreExpr e) }
    ensures expression_made { (level : CoreExpr-F Expr) → phrases_of (roll-CoreExpr level) ≡ expr_phrases phrases_of level }
    ensures statement { (s : StmtOf Expr) → phrases_in s ≡ stmt_phrases phrases_in (out-CoreStmtOf Expr s) }
    ensures statement_made { (level : CoreStmtOf-F Expr (StmtOf Expr)) → phrases_in (roll-CoreStmtOf Expr level) ≡ stmt_phrases phrases_in level }
{}

/// What effects on a store do, they do one behind the other.
pub fn effects_of_stores()
    ensures says { (first second : List ℕ) (store : Store) → says (first ++ second) store ≡ says second (says first store) }
    ensures printed { (bytes : List ℕ) (store : Store) → prints (says bytes store).events ≡ prints store.events ++ bytes }
    ensures ended { (frame : List AnyCell) (store : Store) → closes (opens frame store) ≡ store }
{}

/// What events do, they do one list behind the other.
pub fn events_join()
    ensures prints { (events others : List Event) → prints (events ++ others) ≡ prints events ++ prints others }
    ensures last { (events others : List Event) (database : List Bound) → last (events ++ others) database ≡ last others (last events database) }
{}
