//! `BoxedArguments`: arguments on the heap that contracts see as these. It has a name of its own since a type that
//! leads back to itself can hold it then at no cost: of a `Boxed` its proof goes through all that stands in the box.
ghost use Rattle.std.specs.Prelude.{◌≡◌, IfOk};

use crate::Arguments;
use dbpl_base::{Boxed, Memory};
use std::alloc::Global;
use std::marker::Model;

/// Arguments on the heap.
#[derive(Debug, Drop)]
pub struct BoxedArguments {
    inner: Boxed<Arguments>,
}

impl Model for BoxedArguments {
    ghost use Rattle.std.specs.Coded.{codes};
    ghost use Rattle.dbpl_tree.specs.contracts.factor.Factor as factor;
    ghost use Rattle.dbpl_tree.specs.declared.designator.ArgumentsOf.{ArgumentsOf};
    ghost use Rattle.dbpl_tree.specs.declared.factor.Factor.{Factor};

    ghost Value = { ArgumentsOf Factor };

    ghost coded = { Prim.hlevel (codes, factor.the_row.coded) };

    ghost view = { λ boxed. boxed.inner };
}

impl BoxedArguments {
    pub fn new(alloc: Global, value: Arguments) -> Result<BoxedArguments, Memory>
        ensures { IfOk result (λ boxed. boxed ≡ value) }
    {
        Ok(BoxedArguments {
            inner: Boxed::new(alloc, value)?,
        })
    }

    pub fn get(&self) -> &Arguments
        ensures { result.now ≡ self.now }
    {
        self.inner.get()
    }

    pub fn into_inner(self) -> Arguments
        ensures { result ≡ self }
    {
        let BoxedArguments { inner } = self;
        inner.into_inner()
    }
}
