//! Statements that do nothing.
ghost use Rattle.std.specs.Prelude.{◌≡◌};
ghost use Rattle.dbpl_stored_form.specs.Statements as spec;

use dbpl_tree::Statement;

pub(crate) fn is_nothing(statement: &Statement) -> bool
    ensures { result ≡ spec.is_nothing statement.now }
{
    matches!(statement, Statement::Empty(_))
}
