//! Copies of declarations, each equal to what it copies.
ghost use Rattle.std.specs.Prelude.{◌≡◌, IfOk};

use crate::{Decl, Pair, Sort};
use dbpl_base::{Memory, Shared};
use dbpl_value::Head;
use std::alloc::Global;

/// An equal declaration. Types, names, headings and interfaces get a further owner and aren't copied.
pub fn copy_decl(decl: &Decl) -> Result<Decl, Memory>
    ensures { IfOk result (λ copied. copied ≡ decl.now) }
{
    match decl {
        Decl::Num(kind, number) => Ok(Decl::Num(kind.share()?, *number)),
        Decl::Whole(number) => Ok(Decl::Whole(*number)),
        Decl::Text(text) => Ok(Decl::Text(text.share()?)),
        Decl::Kind(kind) => Ok(Decl::Kind(kind.share()?)),
        Decl::Variable(kind, sort) => Ok(Decl::Variable(kind.share()?, copy_sort(sort)?)),
        Decl::Routine(owner, head) => Ok(Decl::Routine(owner.share()?, head.share()?)),
        Decl::Selector(owner, head, over, depth) => Ok(Decl::Selector(
            owner.share()?,
            head.share()?,
            over.share()?,
            *depth,
        )),
        Decl::Constructor(owner, head, given, depth) => Ok(Decl::Constructor(
            owner.share()?,
            head.share()?,
            given.share()?,
            *depth,
        )),
        Decl::Standard(procedure) => Ok(Decl::Standard(*procedure)),
        Decl::InOut(routine, head) => Ok(Decl::InOut(*routine, copy_heading(head)?)),
        Decl::Unit(exports) => Ok(Decl::Unit(exports.share()?)),
        Decl::Unknown => Ok(Decl::Unknown),
    }
}

/// An equal pair.
pub(crate) fn copy_pair(alloc: Global, pair: &Pair) -> Result<Pair, Memory>
    ensures { IfOk result (λ copied. copied ≡ pair.now) }
{
    let name = pair.name.copy(alloc)?;
    let decl = copy_decl(&pair.decl)?;
    Ok(Pair {
        name,
        decl,
        origin: pair.origin,
    })
}

/// An equal sort of variable.
pub fn copy_sort(sort: &Sort) -> Result<Sort, Memory>
    ensures { IfOk result (λ copied. copied ≡ sort.now) }
{
    match sort {
        Sort::Global(owner) => Ok(Sort::Global(owner.share()?)),
        Sort::Persistent(owner) => Ok(Sort::Persistent(owner.share()?)),
        Sort::Local(number) => Ok(Sort::Local(*number)),
        Sort::Param(number) => Ok(Sort::Param(*number)),
        Sort::Range => Ok(Sort::Range),
        Sort::Done => Ok(Sort::Done),
    }
}

fn copy_heading(head: &Option<Shared<Head>>) -> Result<Option<Shared<Head>>, Memory>
    ensures { IfOk result (λ copied. copied ≡ head.now) }
{
    match head {
        Some(head) => Ok(Some(head.share()?)),
        None => Ok(None),
    }
}
