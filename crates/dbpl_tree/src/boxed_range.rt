//! `BoxedRange`: a range on the heap that contracts see as the range. It has a name of its own since a type that
//! leads back to itself can hold it then at no cost: of a `Boxed` its proof goes through all that stands in the box.
ghost use Rattle.std.specs.Prelude.{◌≡◌, IfOk};

use crate::Range;
use dbpl_base::{Boxed, Memory};
use std::alloc::Global;
use std::marker::Model;

/// A range on the heap.
#[derive(Debug, Drop)]
pub struct BoxedRange {
    inner: Boxed<Range>,
}

impl Model for BoxedRange {
    ghost use Rattle.std.specs.Coded.{codes};
    ghost use Rattle.dbpl_tree.specs.contracts.range.Range as range;
    ghost use Rattle.dbpl_tree.specs.declared.range.Range.{Range};

    ghost Value = { Range };

    ghost coded = { Prim.hlevel (codes, range.the_row.coded) };

    ghost view = { λ boxed. boxed.inner };
}

impl BoxedRange {
    pub fn new(alloc: Global, value: Range) -> Result<BoxedRange, Memory>
        ensures { IfOk result (λ boxed. boxed ≡ value) }
    {
        Ok(BoxedRange {
            inner: Boxed::new(alloc, value)?,
        })
    }

    pub fn get(&self) -> &Range
        ensures { result.now ≡ self.now }
    {
        self.inner.get()
    }

    pub fn into_inner(self) -> Range
        ensures { result ≡ self }
    {
        let BoxedRange { inner } = self;
        inner.into_inner()
    }
}
