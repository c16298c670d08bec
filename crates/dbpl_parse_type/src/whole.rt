//! Types of every kind.
ghost use Rattle.std.specs.Prelude.{◌≡◌, drop};
ghost use Rattle.dbpl_grammar.specs.Expressions.{at_depth};
ghost use Rattle.dbpl_grammar.specs.Types as spec;
ghost use Rattle.dbpl_parse_expr.specs.Gives.{Reads};
ghost use Rattle.dbpl_parse_type.specs.NestedTypes.{ReadsType};

use crate::inner::InnerType;
use crate::plain::{enumeration, named_type, relation_type, subrange};
use dbpl_base::words::{ARRAY, LEFT_BRACKET, LEFT_PARENTHESIS, RECORD, RELATION};
use dbpl_base::{Lexeme, Token};
use dbpl_parse_expr::ReadErr;
use dbpl_parse_expr::tokens::lexeme_at;
use dbpl_tree::TypeTree;
use std::alloc::Global;

impl<T: Fn(Global, &[Token], usize, u8) -> Result<(TypeTree, usize), ReadErr>> InnerType<T> {
    /// A type in which so many phrases may stand inside one another.
    #[tactic(auto, unfolding(dbpl_grammar::specs::Types::type_by))]
    pub fn whole_type(&self, tokens: &[Token], at: usize) -> Result<(TypeTree, usize), ReadErr>
        requires type_tree { ReadsType self.now.depth (T.pre self.now.type_tree) (T.post self.now.type_tree) }
        ensures { Reads tokens.now result (spec.type_by (at_depth self.now.depth) (spec.type_at self.now.depth) (drop at tokens.now)) }
    {
        match lexeme_at(tokens, at) {
            Some(Lexeme::Sign(LEFT_PARENTHESIS)) => enumeration(self.alloc, tokens, at),
            Some(Lexeme::Sign(LEFT_BRACKET)) => subrange(self.alloc, tokens, at, self.depth),
            Some(Lexeme::Reserved(ARRAY)) => self.array(tokens, at),
            Some(Lexeme::Reserved(RECORD)) => self.record_type(tokens, at),
            Some(Lexeme::Reserved(RELATION)) => relation_type(self.alloc, tokens, at),
            _ => named_type(self.alloc, tokens, at),
        }
    }
}
