//! Types, of which only so many may stand inside one another.
ghost use Rattle.std.specs.Prelude.{◌≡◌, drop};
ghost use Rattle.dbpl_grammar.specs.Types as spec;
ghost use Rattle.dbpl_parse_expr.specs.Gives.{Reads};

use crate::inner::InnerType;
use crate::sets::begins_type;
use dbpl_base::Token;
use dbpl_parse_expr::ReadErr;
use dbpl_parse_expr::phrases::too_deep;
use dbpl_tree::TypeTree;
use std::alloc::Global;

/// A type, where so many phrases may still stand inside one another.
pub fn type_tree(
    alloc: Global,
    tokens: &[Token],
    at: usize,
    depth: u8,
) -> Result<(TypeTree, usize), ReadErr>
    ensures { Reads tokens.now result (spec.type_at depth (drop at tokens.now)) }
{
    if depth == 0 {
        return Err(too_deep(at, begins_type(tokens, at)));
    }
    let inner = InnerType {
        alloc,
        depth: depth - 1,
        type_tree,
    };
    inner.whole_type(tokens, at)
}
