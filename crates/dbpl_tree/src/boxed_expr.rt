//! `BoxedExpr`: an expression on the heap that contracts see as the expression. It has a name of its own since a type that
//! leads back to itself can hold it then at no cost: of a `Boxed` its proof goes through all that stands in the box.
ghost use Rattle.std.specs.Prelude.{◌≡◌, IfOk};

use crate::Expr;
use dbpl_base::{Boxed, Memory};
use std::alloc::Global;
use std::marker::Model;

/// An expression on the heap.
#[derive(Debug, Drop)]
pub struct BoxedExpr {
    inner: Boxed<Expr>,
}

impl Model for BoxedExpr {
    ghost use Rattle.std.specs.Coded.{codes};
    ghost use Rattle.dbpl_tree.specs.contracts.factor.Factor as factor;
    ghost use Rattle.dbpl_tree.specs.declared.expr.ExprOf.{ExprOf};
    ghost use Rattle.dbpl_tree.specs.declared.factor.Factor.{Factor};

    ghost Value = { ExprOf Factor };

    ghost coded = { Prim.hlevel (codes, factor.the_row.coded) };

    ghost view = { λ boxed. boxed.inner };
}

impl BoxedExpr {
    pub fn new(alloc: Global, value: Expr) -> Result<BoxedExpr, Memory>
        ensures { IfOk result (λ boxed. boxed ≡ value) }
    {
        Ok(BoxedExpr {
            inner: Boxed::new(alloc, value)?,
        })
    }

    pub fn get(&self) -> &Expr
        ensures { result.now ≡ self.now }
    {
        self.inner.get()
    }

    pub fn into_inner(self) -> Expr
        ensures { result ≡ self }
    {
        let BoxedExpr { inner } = self;
        inner.into_inner()
    }
}
