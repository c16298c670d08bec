//! The productions take the parser of the types inside them, so that each is proved by itself.
ghost use Rattle.std.specs.Prelude.{◌≡◌, drop};
ghost use Rattle.dbpl_grammar.specs.Types as spec;
ghost use Rattle.dbpl_parse_expr.specs.Gives.{Reads};
ghost use Rattle.dbpl_parse_type.specs.NestedTypes.{ReadsType};

use dbpl_base::{Boxed, Token};
use dbpl_parse_expr::ReadErr;
use dbpl_tree::TypeTree;
use std::alloc::Global;

/// What is read where so many phrases may still stand inside one another.
#[derive(Clone, Copy)]
pub struct InnerType<T> {
    pub alloc: Global,
    pub depth: u8,
    pub type_tree: T,
}

impl<T: Fn(Global, &[Token], usize, u8) -> Result<(TypeTree, usize), ReadErr>> InnerType<T> {
    pub fn type_tree(&self, tokens: &[Token], at: usize) -> Result<(TypeTree, usize), ReadErr>
        requires type_tree { ReadsType self.now.depth (T.pre self.now.type_tree) (T.post self.now.type_tree) }
        ensures { Reads tokens.now result (spec.type_at self.now.depth (drop at tokens.now)) }
    {
        (self.type_tree)(self.alloc, tokens, at, self.depth)
    }

    /// A type in a box of its own.
    pub fn boxed_type(
        &self,
        tokens: &[Token],
        at: usize,
    ) -> Result<(Boxed<TypeTree>, usize), ReadErr>
        requires type_tree { ReadsType self.now.depth (T.pre self.now.type_tree) (T.post self.now.type_tree) }
        ensures { Reads tokens.now result (spec.type_at self.now.depth (drop at tokens.now)) }
    {
        let (found, at) = self.type_tree(tokens, at)?;
        Ok((Boxed::new(self.alloc, found)?, at))
    }
}
