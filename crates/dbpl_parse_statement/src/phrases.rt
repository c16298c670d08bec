//! The statements of which only so many may stand inside one another.
ghost use Rattle.std.specs.Prelude.{◌≡◌, drop};
ghost use Rattle.dbpl_grammar.specs.Statements as spec;
ghost use Rattle.dbpl_parse_expr.specs.Gives.{Reads};

use crate::body::Body;
use crate::sets::begins_statements;
use dbpl_base::Token;
use dbpl_parse_expr::ReadErr;
use dbpl_parse_expr::phrases::too_deep;
use dbpl_tree::Statements;
use std::alloc::Global;

/// Statements, where so many phrases may still stand inside one another.
pub fn statements(
    alloc: Global,
    tokens: &[Token],
    at: usize,
    depth: u8,
) -> Result<(Statements, usize), ReadErr>
    ensures { Reads tokens.now result (spec.statements_at depth (drop at tokens.now)) }
{
    if depth == 0 {
        return Err(too_deep(at, begins_statements(tokens, at)));
    }
    let body = Body {
        alloc,
        depth: depth - 1,
        statements,
    };
    body.whole_statements(tokens, at)
}
