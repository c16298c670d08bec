//! Copies of types.
ghost use Rattle.std.specs.Prelude.{◌≡◌, IfOk};

use crate::expressions::copy_boxed_expr;
use crate::names::{copy_idents, copy_qual};
use crate::pair::{boxed, pair};
use dbpl_base::{List, Memory};
use dbpl_tree::{Fields, TypeTree};
use std::alloc::Global;

#[cycle(copy_types)]
pub fn copy_type(alloc: Global, t: &TypeTree) -> Result<TypeTree, Memory>
    ensures { IfOk result (λ copied. copied ≡ t.now) }
{
    match t {
        TypeTree::Named(q) => Ok(TypeTree::Named(copy_qual(alloc, q)?)),
        TypeTree::Enumeration(place, names) => Ok(TypeTree::Enumeration(
            *place,
            copy_idents(alloc, names)?,
        )),
        TypeTree::Subrange(place, low, high) => {
            let (low, high) = pair(copy_boxed_expr(alloc, low)?, copy_boxed_expr(alloc, high))?;
            Ok(TypeTree::Subrange(*place, low, high))
        }
        TypeTree::Array(place, index, others, element) => {
            let ((index, others), element) = pair(
                pair(
                    boxed(alloc, copy_type(alloc, index.get()))?,
                    copy_type_list(alloc, others),
                )?,
                boxed(alloc, copy_type(alloc, element.get())),
            )?;
            Ok(TypeTree::Array(*place, index, others, element))
        }
        TypeTree::Record(place, first, others) => {
            let (first, others) = pair(
                copy_fields(alloc, first)?,
                copy_fields_list(alloc, others),
            )?;
            Ok(TypeTree::Record(*place, first, others))
        }
        TypeTree::Relation(place, keys, q) => {
            let (keys, q) = pair(copy_idents(alloc, keys)?, copy_qual(alloc, q))?;
            Ok(TypeTree::Relation(*place, keys, q))
        }
    }
}

#[cycle(copy_types)]
fn copy_type_list(alloc: Global, others: &List<TypeTree>) -> Result<List<TypeTree>, Memory>
    ensures { IfOk result (λ copied. copied ≡ others.now) }
{
    let mut copied = List::new(alloc);
    for other in others.as_slice() {
        copied.push(copy_type(alloc, other)?)?;
    }
    Ok(copied)
}

#[cycle(copy_types)]
fn copy_fields(alloc: Global, fields: &Fields) -> Result<Fields, Memory>
    ensures { IfOk result (λ copied. copied ≡ fields.now) }
{
    match fields {
        Fields::Empty(place) => Ok(Fields::Empty(*place)),
        Fields::Fields(names, t) => {
            let (names, t) = pair(
                copy_idents(alloc, names)?,
                boxed(alloc, copy_type(alloc, t.get())),
            )?;
            Ok(Fields::Fields(names, t))
        }
    }
}

#[cycle(copy_types)]
fn copy_fields_list(alloc: Global, others: &List<Fields>) -> Result<List<Fields>, Memory>
    ensures { IfOk result (λ copied. copied ≡ others.now) }
{
    let mut copied = List::new(alloc);
    for other in others.as_slice() {
        copied.push(copy_fields(alloc, other)?)?;
    }
    Ok(copied)
}
