//! Names are compared in their order, so that it takes few comparisons to see whether one stands there twice.
ghost use Rattle.std.specs.Prelude.{◌≡◌, IfOk, IsSorted, map};
ghost use Rattle.std.specs.Cmp.Lexicographic.{slice_cmp};
ghost use Rattle.std.specs.Ordering.{nat_cmp};
ghost use Rattle.dbpl_value.specs.Types.{are_different as are_different_names};

use crate::Field;
use dbpl_base::{Memory, Name};
use std::alloc::Global;

/// No name stands there twice.
pub fn are_different(alloc: Global, names: &[Name]) -> Result<bool, Memory>
    ensures { IfOk result (λ answer. answer ≡ are_different_names names.now) }
{
    let mut texts = Vec::new(alloc);
    for name in names {
        texts.push(name.as_bytes())?;
    }
    all_distinct(texts)
}

/// No two fields have one name.
pub fn are_fields_different(alloc: Global, fields: &[Field]) -> Result<bool, Memory>
    ensures { IfOk result (λ answer. answer ≡ are_different_names (map (λ field. field.name) fields.now)) }
{
    let mut texts = Vec::new(alloc);
    for field in fields {
        texts.push(field.name.as_bytes())?;
    }
    all_distinct(texts)
}

/// No name stands there twice. They are sorted, so that equal ones are neighbours.
fn all_distinct(mut names: Vec<&[u8]>) -> Result<bool, Memory>
    ensures { IfOk result (λ answer. answer ≡ are_different_names (map (λ name. name.now) names.entry.items)) }
{
    names.sort()?;
    Ok(are_neighbours_different(names.as_slice()))
}

/// Of names in order, no two neighbours are equal.
fn are_neighbours_different(names: &[&[u8]]) -> bool
    ensures { IsSorted (λ x y. slice_cmp nat_cmp x.now y.now) names.now →
        result ≡ are_different_names (map (λ name. name.now) names.now) }
{
    for i in 1..names.len() {
        if names[i - 1] == names[i] {
            return false;
        }
    }
    true
}
