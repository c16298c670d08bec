//! Types of records.
ghost use Rattle.std.specs.Prelude.{◌≡◌, ◌∷◌, [], drop};
ghost use Rattle.dbpl_grammar.specs.Reading.{after, many};
ghost use Rattle.dbpl_grammar.specs.Types as spec;
ghost use Rattle.dbpl_parse_expr.specs.Gives.{Reads};
ghost use Rattle.dbpl_parse_type.specs.NestedTypes.{ReadsType};
ghost use Rattle.dbpl_tree.specs.Words as lexeme;

use crate::inner::InnerType;
use dbpl_base::words::{COLON, END, RECORD, SEMICOLON};
use dbpl_base::{List, Token};
use dbpl_parse_expr::ReadErr;
use dbpl_parse_expr::names::idents;
use dbpl_parse_expr::pair::{closing, pair};
use dbpl_parse_expr::sets::begins_ident;
use dbpl_parse_expr::tokens::{begins_sign, here, sign, turns, word};
use dbpl_tree::{Fields, FieldsOf, TypeTree};
use std::alloc::Global;

impl<T: Fn(Global, &[Token], usize, u8) -> Result<(TypeTree, usize), ReadErr>> InnerType<T> {
    /// The fields of one type, or nothing.
    #[tactic(auto, using(dbpl_parse_expr::proofs::Pairs::pairs), unfolding(dbpl_grammar::specs::Types::fields))]
    fn fields(&self, tokens: &[Token], at: usize) -> Result<(Fields, usize), ReadErr>
        requires type_tree { ReadsType self.now.depth (T.pre self.now.type_tree) (T.post self.now.type_tree) }
        ensures { Reads tokens.now result (spec.fields (spec.type_at self.now.depth) (drop at tokens.now)) }
    {
        if !begins_ident(tokens, at) {
            let place = here(tokens, at)?;
            return Ok((FieldsOf::Empty(place), at));
        }
        let (names, at) = idents(self.alloc, tokens, at)?;
        let (names, at) = closing(names, sign(tokens, at, COLON))?;
        let ((names, type_tree), at) = pair(names, self.boxed_type(tokens, at))?;
        Ok((FieldsOf::Fields(names, type_tree), at))
    }

    /// A semicolon and the fields of one type.
    fn further_fields(&self, tokens: &[Token], at: usize) -> Result<(Fields, usize), ReadErr>
        requires type_tree { ReadsType self.now.depth (T.pre self.now.type_tree) (T.post self.now.type_tree) }
        ensures { Reads tokens.now result (after lexeme.semicolon (spec.fields (spec.type_at self.now.depth)) (drop at tokens.now)) }
    {
        let at = sign(tokens, at, SEMICOLON)?;
        self.fields(tokens, at)
    }

    /// Further fields, each behind a semicolon.
    #[tactic(auto, using(dbpl_parse_expr::proofs::Loops::loops))]
    fn other_fields(&self, tokens: &[Token], at: usize) -> Result<(List<Fields>, usize), ReadErr>
        requires type_tree { ReadsType self.now.depth (T.pre self.now.type_tree) (T.post self.now.type_tree) }
        ensures { Reads tokens.now result (many (lexeme.semicolon ∷ []) (after lexeme.semicolon (spec.fields (spec.type_at self.now.depth))) (drop at tokens.now)) }
    {
        let mut found = List::new(self.alloc);
        let mut next = at;
        for _turn in 0..turns(tokens, at) {
            if !begins_sign(tokens, next, SEMICOLON) {
                return Ok((found, next));
            }
            let (one, behind) = self.further_fields(tokens, next)?;
            found.push(one)?;
            next = behind;
        }
        Err(ReadErr::Wrong(next))
    }

    /// A type of records.
    #[tactic(auto, using(dbpl_parse_expr::proofs::Pairs::pairs), unfolding(dbpl_grammar::specs::Types::record_type))]
    pub fn record_type(&self, tokens: &[Token], at: usize) -> Result<(TypeTree, usize), ReadErr>
        requires type_tree { ReadsType self.now.depth (T.pre self.now.type_tree) (T.post self.now.type_tree) }
        ensures { Reads tokens.now result (spec.record_type (spec.type_at self.now.depth) (drop at tokens.now)) }
    {
        let place = here(tokens, at)?;
        let at = word(tokens, at, RECORD)?;
        let (first, at) = self.fields(tokens, at)?;
        let (found, at) = pair(first, self.other_fields(tokens, at))?;
        let ((first, others), at) = closing(found, word(tokens, at, END))?;
        Ok((TypeTree::Record(place, first, others), at))
    }
}
