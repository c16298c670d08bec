//! Types of arrays.
ghost use Rattle.std.specs.Prelude.{◌≡◌, ◌∷◌, [], drop};
ghost use Rattle.dbpl_grammar.specs.Reading.{after, many};
ghost use Rattle.dbpl_grammar.specs.Types as spec;
ghost use Rattle.dbpl_parse_expr.specs.Gives.{Reads};
ghost use Rattle.dbpl_parse_type.specs.NestedTypes.{ReadsType};
ghost use Rattle.dbpl_tree.specs.Words as lexeme;

use crate::inner::InnerType;
use dbpl_base::words::{ARRAY, COMMA, OF};
use dbpl_base::{List, Token};
use dbpl_parse_expr::ReadErr;
use dbpl_parse_expr::pair::{closing, pair};
use dbpl_parse_expr::tokens::{begins_sign, here, sign, turns, word};
use dbpl_tree::TypeTree;
use std::alloc::Global;

impl<T: Fn(Global, &[Token], usize, u8) -> Result<(TypeTree, usize), ReadErr>> InnerType<T> {
    /// A comma and a type of an index.
    fn further_index(&self, tokens: &[Token], at: usize) -> Result<(TypeTree, usize), ReadErr>
        requires type_tree { ReadsType self.now.depth (T.pre self.now.type_tree) (T.post self.now.type_tree) }
        ensures { Reads tokens.now result (after lexeme.comma (spec.type_at self.now.depth) (drop at tokens.now)) }
    {
        let at = sign(tokens, at, COMMA)?;
        self.type_tree(tokens, at)
    }

    /// Further types of indices, each behind a comma.
    #[tactic(auto, using(dbpl_parse_expr::proofs::Loops::loops))]
    fn other_indices(&self, tokens: &[Token], at: usize) -> Result<(List<TypeTree>, usize), ReadErr>
        requires type_tree { ReadsType self.now.depth (T.pre self.now.type_tree) (T.post self.now.type_tree) }
        ensures { Reads tokens.now result (many (lexeme.comma ∷ []) (after lexeme.comma (spec.type_at self.now.depth)) (drop at tokens.now)) }
    {
        let mut found = List::new(self.alloc);
        let mut next = at;
        for _turn in 0..turns(tokens, at) {
            if !begins_sign(tokens, next, COMMA) {
                return Ok((found, next));
            }
            let (one, behind) = self.further_index(tokens, next)?;
            found.push(one)?;
            next = behind;
        }
        Err(ReadErr::Wrong(next))
    }

    /// A type of arrays.
    #[tactic(auto, using(dbpl_parse_expr::proofs::Pairs::pairs), unfolding(dbpl_grammar::specs::Types::array))]
    pub fn array(&self, tokens: &[Token], at: usize) -> Result<(TypeTree, usize), ReadErr>
        requires type_tree { ReadsType self.now.depth (T.pre self.now.type_tree) (T.post self.now.type_tree) }
        ensures { Reads tokens.now result (spec.array (spec.type_at self.now.depth) (drop at tokens.now)) }
    {
        let place = here(tokens, at)?;
        let at = word(tokens, at, ARRAY)?;
        let (first, at) = self.boxed_type(tokens, at)?;
        let (indices, at) = pair(first, self.other_indices(tokens, at))?;
        let (indices, at) = closing(indices, word(tokens, at, OF))?;
        let (((first, others), element), at) = pair(indices, self.boxed_type(tokens, at))?;
        Ok((TypeTree::Array(place, first, others, element), at))
    }
}
