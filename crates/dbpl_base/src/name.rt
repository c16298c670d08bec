//! `Name`: the bytes of an identifier, a file's name or a string.
ghost use Rattle.std.specs.Prelude.{◌≡◌, ◌↔◌, bytes_eq, IfOk, IsTrue, refl, Some};
ghost use Rattle.std.specs.Cmp.Lexicographic.{nat_list_cmp_total, slice_cmp, texts_po, texts_ties};
ghost use Rattle.std.specs.Ordering.{nat_cmp};

use crate::{List, Memory};
use std::alloc::Global;
use std::cmp::Ordering;
use std::marker::Model;

/// A list of bytes that stands for itself. It needn't be UTF-8.
#[derive(Debug, PartialEq, Eq, Drop)]
pub struct Name {
    bytes: List<u8>,
}

impl Model for Name {
    ghost use Rattle.std.specs.Prelude.{List as Seq, ℕ};

    ghost Value = { Seq ℕ };

    ghost view = { λ name. name.bytes };

    ghost inverse = { λ bytes. record { bytes = bytes } };
}

impl Name {
    pub fn from_vec(bytes: Vec<u8>) -> Name
        ensures { result ≡ bytes.items }
    {
        Name {
            bytes: List::from_vec(bytes),
        }
    }

    pub fn as_bytes(&self) -> &[u8]
        ensures { result.now ≡ self.now }
    {
        self.bytes.as_slice()
    }

    pub fn is(&self, bytes: &[u8]) -> bool
        ensures equal { IsTrue result ↔ (self.now ≡ bytes.now) }
        ensures computed { result ≡ bytes_eq self.now bytes.now }
    {
        self.bytes.as_slice() == bytes
    }

    pub fn copy(&self, alloc: Global) -> Result<Name, Memory>
        ensures { IfOk result (λ name. name ≡ self.now) }
    {
        name_of(alloc, self.as_bytes())
    }
}

impl PartialOrd for Name {
    ghost partial_cmp = { λ x y. Some (slice_cmp nat_cmp x y) };

    ghost laws = { texts_po };

    fn partial_cmp(&self, other: &Name) -> Option<Ordering> {
        Some(self.cmp(other))
    }
}

/// Names are ordered by their bytes.
impl Ord for Name {
    ghost cmp = { slice_cmp nat_cmp };

    ghost total = { nat_list_cmp_total };

    ghost matches_partial_cmp = { λ x y. refl };

    ghost matches_eq = { λ x y. texts_ties x y };

    fn cmp(&self, other: &Name) -> Ordering {
        self.bytes.as_slice().cmp(other.bytes.as_slice())
    }
}

/// A name that holds a copy of these bytes.
pub fn name_of(alloc: Global, bytes: &[u8]) -> Result<Name, Memory>
    ensures { IfOk result (λ name. name ≡ bytes.now) }
{
    Ok(Name {
        bytes: List::from_slice(alloc, bytes)?,
    })
}
