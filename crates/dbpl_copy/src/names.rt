//! Copies of names.
ghost use Rattle.std.specs.Prelude.{◌≡◌, IfOk};

use crate::pair::pair;
use dbpl_base::{List, Memory};
use dbpl_tree::{Ident, Idents, Qual};
use std::alloc::Global;

pub fn copy_ident(alloc: Global, x: &Ident) -> Result<Ident, Memory>
    ensures { IfOk result (λ copied. copied ≡ x.now) }
{
    Ok(Ident {
        place: x.place,
        name: x.name.copy(alloc)?,
    })
}

pub fn copy_idents(alloc: Global, names: &Idents) -> Result<Idents, Memory>
    ensures { IfOk result (λ copied. copied ≡ names.now) }
{
    let (first, others) = pair(
        copy_ident(alloc, &names.first)?,
        copy_ident_list(alloc, &names.others),
    )?;
    Ok(Idents { first, others })
}

fn copy_ident_list(alloc: Global, others: &List<Ident>) -> Result<List<Ident>, Memory>
    ensures { IfOk result (λ copied. copied ≡ others.now) }
{
    let mut copied = List::new(alloc);
    for other in others.as_slice() {
        copied.push(copy_ident(alloc, other)?)?;
    }
    Ok(copied)
}

fn copy_optional_ident(alloc: Global, x: &Option<Ident>) -> Result<Option<Ident>, Memory>
    ensures { IfOk result (λ copied. copied ≡ x.now) }
{
    match x {
        Some(one) => Ok(Some(copy_ident(alloc, one)?)),
        None => Ok(None),
    }
}

pub fn copy_qual(alloc: Global, q: &Qual) -> Result<Qual, Memory>
    ensures { IfOk result (λ copied. copied ≡ q.now) }
{
    let (first, second) = pair(
        copy_ident(alloc, &q.first)?,
        copy_optional_ident(alloc, &q.second),
    )?;
    Ok(Qual { first, second })
}

pub fn copy_optional_qual(alloc: Global, q: &Option<Qual>) -> Result<Option<Qual>, Memory>
    ensures { IfOk result (λ copied. copied ≡ q.now) }
{
    match q {
        Some(one) => Ok(Some(copy_qual(alloc, one)?)),
        None => Ok(None),
    }
}
