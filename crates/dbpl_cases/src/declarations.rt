//! The scope over which expressions are judged.
use crate::modules::{declare_in_out, declare_other};
use crate::routines::{head_of, routine};
use crate::types::{Sample, shared_name, shared_type};
use dbpl_base::{Memory, name_of};
use dbpl_judging::{Checker, Setting, pair};
use dbpl_symbols::{Decl, Origin, Sort, make_scope};
use std::alloc::Global;

/// A checker in the body of the module M.
pub(crate) fn checker_of(alloc: Global) -> Result<Checker, Memory> {
    let (scope, module) = pair(make_scope(alloc)?, shared_name(alloc, "M"))?;
    let mut checker = Checker::new(Setting {
        scope,
        module,
        heading: None,
        in_loop: false,
        has_relations: false,
    });
    checker.enter()?;
    declare_types(alloc, &mut checker)?;
    declare_constants(alloc, &mut checker)?;
    declare_variables(alloc, &mut checker)?;
    declare_other_sorts(alloc, &mut checker)?;
    declare_routines(alloc, &mut checker)?;
    declare_views(alloc, &mut checker)?;
    declare_in_out(alloc, &mut checker)?;
    declare_other(alloc, &mut checker)?;
    declare(alloc, &mut checker, "lost", Decl::Unknown)?;
    Ok(checker)
}

fn declare(alloc: Global, checker: &mut Checker, name: &str, decl: Decl) -> Result<(), Memory> {
    let (decl, name) = pair(decl, name_of(alloc, name.as_bytes()))?;
    checker.declare(alloc, &name, decl, Origin::Declared)
}

// ---- types

fn declare_types(alloc: Global, checker: &mut Checker) -> Result<(), Memory> {
    let types = [
        ("R", Sample::Pair),
        ("Nest", Sample::Nest),
        ("Empty", Sample::Empty),
        ("Three", Sample::Three),
        ("Four", Sample::Four),
        ("Marks", Sample::Marks),
        ("Letters", Sample::Letters),
        ("Grid", Sample::Grid),
        ("Flags", Sample::Flags),
        ("Color", Sample::Color),
        ("Wind", Sample::Wind),
        ("Small", Sample::Small),
        ("Low", Sample::Low),
        ("Letter", Sample::Letter),
        ("Warm", Sample::Warm),
        ("Sure", Sample::Sure),
        ("Pairs", Sample::Pairs),
        ("Holder", Sample::Holder),
    ];
    for (name, sample) in &types {
        let decl = Decl::Kind(shared_type(alloc, *sample)?);
        declare(alloc, checker, name, decl)?;
    }
    Ok(())
}

// ---- constants

fn declare_constants(alloc: Global, checker: &mut Checker) -> Result<(), Memory> {
    declare_wholes(alloc, checker)?;
    declare_numbers(alloc, checker)?;
    declare_texts(alloc, checker)
}

fn declare_wholes(alloc: Global, checker: &mut Checker) -> Result<(), Memory> {
    let wholes = [
        ("k", 7),
        ("zero", 0),
        ("neg", -5),
        ("top", 4_294_967_295),
        ("bottom", -2_147_483_648),
    ];
    for (name, n) in &wholes {
        declare(alloc, checker, name, Decl::Whole(*n))?;
    }
    Ok(())
}

fn declare_numbers(alloc: Global, checker: &mut Checker) -> Result<(), Memory> {
    let numbers = [
        ("red", Sample::Color, 0),
        ("green", Sample::Color, 1),
        ("blue", Sample::Color, 2),
        ("north", Sample::Wind, 0),
        ("south", Sample::Wind, 1),
        ("star", Sample::Char, 42),
        ("yes", Sample::Boolean, 1),
    ];
    for (name, sample, n) in &numbers {
        let decl = Decl::Num(shared_type(alloc, *sample)?, *n);
        declare(alloc, checker, name, decl)?;
    }
    Ok(())
}

fn declare_texts(alloc: Global, checker: &mut Checker) -> Result<(), Memory> {
    let texts = [("none", ""), ("single", "z"), ("double", "ab")];
    for (name, text) in &texts {
        let decl = Decl::Text(shared_name(alloc, text)?);
        declare(alloc, checker, name, decl)?;
    }
    Ok(())
}

// ---- variables

fn declare_variables(alloc: Global, checker: &mut Checker) -> Result<(), Memory> {
    let variables = [
        ("c", Sample::Cardinal),
        ("i", Sample::Integer),
        ("b", Sample::Boolean),
        ("ch", Sample::Char),
        ("color", Sample::Color),
        ("wind", Sample::Wind),
        ("small", Sample::Small),
        ("low", Sample::Low),
        ("letter", Sample::Letter),
        ("warm", Sample::Warm),
        ("sure", Sample::Sure),
        ("a", Sample::Three),
        ("four", Sample::Four),
        ("marks", Sample::Marks),
        ("letters", Sample::Letters),
        ("flags", Sample::Flags),
        ("tints", Sample::Tints),
        ("codes", Sample::Codes),
        ("grid", Sample::Grid),
        ("shifts", Sample::Shifts),
        ("r", Sample::Pair),
        ("n", Sample::Nest),
        ("e", Sample::Empty),
        ("rows", Sample::Pairs),
        ("h", Sample::Holder),
    ];
    for (name, sample) in &variables {
        let sort = Sort::Global(shared_name(alloc, "M")?);
        declare_variable(alloc, checker, name, *sample, sort)?;
    }
    Ok(())
}

fn declare_variable(
    alloc: Global,
    checker: &mut Checker,
    name: &str,
    sample: Sample,
    sort: Sort,
) -> Result<(), Memory> {
    let (sort, t) = pair(sort, shared_type(alloc, sample))?;
    declare(alloc, checker, name, Decl::Variable(t, sort))
}

/// A parameter, a local variable, a relation variable of a database module and a variable of a range.
fn declare_other_sorts(alloc: Global, checker: &mut Checker) -> Result<(), Memory> {
    declare_variable(alloc, checker, "param", Sample::Cardinal, Sort::Param(0))?;
    declare_variable(alloc, checker, "local", Sample::Cardinal, Sort::Local(2))?;
    let sort = Sort::Persistent(shared_name(alloc, "D")?);
    declare_variable(alloc, checker, "rel", Sample::Pairs, sort)?;
    declare_variable(alloc, checker, "x", Sample::Pair, Sort::Range)
}

// ---- routines and views

fn declare_routines(alloc: Global, checker: &mut Checker) -> Result<(), Memory> {
    let number = Some(Sample::Cardinal);
    declare_routine(alloc, checker, "f", &[(false, Sample::Cardinal)], number)?;
    let two = [(false, Sample::Char), (false, Sample::Three)];
    declare_routine(alloc, checker, "g", &two, number)?;
    declare_routine(alloc, checker, "v", &[(true, Sample::Cardinal)], number)?;
    declare_routine(alloc, checker, "p", &[(false, Sample::Cardinal)], None)?;
    declare_routine(alloc, checker, "z", &[], number)?;
    declare_routine(
        alloc,
        checker,
        "fi",
        &[(false, Sample::Integer)],
        Some(Sample::Integer),
    )?;
    declare_routine(
        alloc,
        checker,
        "fs",
        &[(false, Sample::Small)],
        Some(Sample::Small),
    )?;
    declare_routine(
        alloc,
        checker,
        "fl",
        &[(false, Sample::Letter)],
        Some(Sample::Letter),
    )?;
    declare_routine(
        alloc,
        checker,
        "fe",
        &[(false, Sample::Color)],
        Some(Sample::Color),
    )?;
    declare_routine(
        alloc,
        checker,
        "fb",
        &[(false, Sample::Boolean)],
        Some(Sample::Boolean),
    )?;
    declare_routine(
        alloc,
        checker,
        "fr",
        &[(false, Sample::Pair)],
        Some(Sample::Pair),
    )?;
    declare_routine(
        alloc,
        checker,
        "fm",
        &[(false, Sample::Marks)],
        Some(Sample::Three),
    )?;
    declare_routine(
        alloc,
        checker,
        "fq",
        &[(false, Sample::Pairs)],
        Some(Sample::Pairs),
    )?;
    declare_routine(alloc, checker, "ft", &[(false, Sample::Letters)], number)?;
    declare_routine(alloc, checker, "va", &[(true, Sample::Three)], number)?;
    declare_routine(alloc, checker, "vb", &[(true, Sample::Boolean)], number)?;
    declare_routine(alloc, checker, "vh", &[(true, Sample::Char)], number)?;
    declare_routine(alloc, checker, "vr", &[(true, Sample::Pair)], number)
}

fn declare_routine(
    alloc: Global,
    checker: &mut Checker,
    name: &str,
    params: &[(bool, Sample)],
    gives: Option<Sample>,
) -> Result<(), Memory> {
    let decl = routine(alloc, "M", name, params, gives)?;
    declare(alloc, checker, name, decl)
}

/// A selector and a constructor.
fn declare_views(alloc: Global, checker: &mut Checker) -> Result<(), Memory> {
    let (module, head) = pair(shared_name(alloc, "M")?, head_of(alloc, "sel", &[], None))?;
    let ((module, head), t) = pair((module, head), shared_type(alloc, Sample::Pairs))?;
    declare(alloc, checker, "sel", Decl::Selector(module, head, t, 1))?;
    let (module, head) = pair(shared_name(alloc, "M")?, head_of(alloc, "con", &[], None))?;
    let ((module, head), t) = pair((module, head), shared_type(alloc, Sample::Pairs))?;
    declare(alloc, checker, "con", Decl::Constructor(module, head, t, 1))
}
