//! The modules of the scope.
use crate::routines::routine;
use crate::types::{Sample, shared_name, shared_type};
use dbpl_base::{List, Memory, Shared, name_of};
use dbpl_judging::{Checker, pair};
use dbpl_symbols::{Decl, Exports, Origin, Pair, Sort, copy_decl, in_out};
use std::alloc::Global;

/// Declares InOut and all its names, as by both forms of an import.
pub(crate) fn declare_in_out(alloc: Global, checker: &mut Checker) -> Result<(), Memory> {
    let exports = in_out(alloc)?;
    for shown in exports.pairs.as_slice() {
        checker.declare(
            alloc,
            &shown.name,
            copy_decl(&shown.decl)?,
            Origin::Imported,
        )?;
    }
    let unit = Decl::Unit(Shared::new(alloc, exports)?);
    checker.declare(alloc, &name_of(alloc, b"InOut")?, unit, Origin::Imported)
}

/// Declares the module Other, which shows a variable `c`, a constant `k`, a type `R`, a function `f` and a name `lost`
/// whose declaration was refused.
pub(crate) fn declare_other(alloc: Global, checker: &mut Checker) -> Result<(), Memory> {
    let module = shared_name(alloc, "Other")?;
    let (module, pairs) = pair(module, other_pairs(alloc))?;
    let unit = Decl::Unit(Shared::new(alloc, Exports { module, pairs })?);
    checker.declare(alloc, &name_of(alloc, b"Other")?, unit, Origin::Imported)
}

fn other_pairs(alloc: Global) -> Result<List<Pair>, Memory> {
    let mut pairs = List::new(alloc);
    show(alloc, &mut pairs, "c", other_variable(alloc)?)?;
    show(alloc, &mut pairs, "k", Decl::Whole(3))?;
    show(
        alloc,
        &mut pairs,
        "R",
        Decl::Kind(shared_type(alloc, Sample::Pair)?),
    )?;
    let params = [(false, Sample::Cardinal)];
    let function = routine(alloc, "Other", "f", &params, Some(Sample::Cardinal))?;
    show(alloc, &mut pairs, "f", function)?;
    show(alloc, &mut pairs, "lost", Decl::Unknown)?;
    Ok(pairs)
}

fn other_variable(alloc: Global) -> Result<Decl, Memory> {
    let (t, module) = pair(
        shared_type(alloc, Sample::Cardinal)?,
        shared_name(alloc, "Other"),
    )?;
    Ok(Decl::Variable(t, Sort::Global(module)))
}

fn show(alloc: Global, pairs: &mut List<Pair>, name: &str, decl: Decl) -> Result<(), Memory> {
    let (decl, name) = pair(decl, name_of(alloc, name.as_bytes()))?;
    pairs.push(Pair {
        name,
        decl,
        origin: Origin::Declared,
    })
}
