//! The test of a tree for a module that prints lines.
ghost use Rattle.std.specs.Prelude.{◌≡◌, option_map, IfOk, Some};
ghost use Rattle.dbpl_alone.specs.Small as spec;
ghost use Rattle.dbpl_alone.specs.declared.statement.Statement.TheVariants.{WriteString};
ghost use Rattle.dbpl_tree.specs.Plain.{argument_of as string_in};

use crate::{Program, Statement};
use dbpl_base::{List, Memory, Name};
use dbpl_tree::{
    Arguments, BoxedArguments, Designator, Ident, Import, Statements, Unit, argument_of, has_name,
    is_name,
};
use std::alloc::Global;

fn write_string(alloc: Global, arguments: &Arguments) -> Result<Option<Statement>, Memory>
    ensures { IfOk result (λ small. small ≡ option_map WriteString (string_in arguments.now)) }
{
    match argument_of(arguments) {
        Some(text) => Ok(Some(Statement::WriteString(text.copy(alloc)?))),
        None => Ok(None),
    }
}

#[tactic(auto, unfolding(dbpl_tree::specs::Words::write_string, dbpl_tree::specs::Words::write_ln))]
fn call_of(
    alloc: Global,
    designator: &Designator,
    arguments: &Option<BoxedArguments>,
) -> Result<Option<Statement>, Memory>
    ensures { IfOk result (λ small. small ≡ spec.call_of designator.now arguments.now) }
{
    match arguments {
        None if is_name(designator, b"WriteLn") => Ok(Some(Statement::WriteLn)),
        Some(arguments) if is_name(designator, b"WriteString") => {
            write_string(alloc, arguments.get())
        }
        _ => Ok(None),
    }
}

/// The statement of the form that this one is.
fn small_statement(
    alloc: Global,
    statement: &dbpl_tree::Statement,
) -> Result<Option<Statement>, Memory>
    ensures { IfOk result (λ small. small ≡ spec.small_statement statement.now) }
{
    match statement {
        dbpl_tree::Statement::Call(designator, arguments) => call_of(alloc, designator, arguments),
        _ => Ok(None),
    }
}

/// This statement, and behind it those of the form that the others are.
fn with_others(
    alloc: Global,
    first: Statement,
    others: &[dbpl_tree::Statement],
) -> Result<Option<List<Statement>>, Memory>
    ensures { IfOk result (λ small. small ≡ spec.in_front (Some first) (spec.small_statements others.now)) }
{
    let mut all = List::new(alloc);
    all.push(first)?;
    for statement in others {
        let Some(next) = small_statement(alloc, statement)? else {
            return Ok(None);
        };
        all.push(next)?;
    }
    Ok(Some(all))
}

/// The statements of the form that these are.
fn small_body(alloc: Global, body: &Option<Statements>) -> Result<Option<List<Statement>>, Memory>
    ensures { IfOk result (λ small. small ≡ spec.small_body body.now) }
{
    let Some(statements) = body else {
        return Ok(None);
    };
    match small_statement(alloc, statements.first.get())? {
        Some(first) => with_others(alloc, first, statements.others.as_slice()),
        None => Ok(None),
    }
}

/// Whether this is a name that a module of the form imports.
#[tactic(auto, unfolding(dbpl_tree::specs::Words::in_out, dbpl_tree::specs::Words::write_string, dbpl_tree::specs::Words::write_ln))]
fn is_imported(ident: &Ident) -> bool
    ensures { result ≡ spec.is_imported ident.now.name }
{
    has_name(ident, b"InOut") || has_name(ident, b"WriteString") || has_name(ident, b"WriteLn")
}

/// Whether this is the line `FROM InOut IMPORT WriteString, WriteLn;`
#[tactic(auto, unfolding(dbpl_tree::specs::Words::in_out, dbpl_tree::specs::Words::write_string, dbpl_tree::specs::Words::write_ln))]
fn is_line_import(import: &Import) -> bool
    ensures { result ≡ spec.is_line_import import.now }
{
    match import {
        Import::From(_, from, names) => {
            has_name(from, b"InOut")
                && has_name(&names.first, b"WriteString")
                && is_one_name(names.others.as_slice(), b"WriteLn")
        }
        Import::Whole(_, _) => false,
    }
}

fn is_one_name(idents: &[Ident], name: &[u8]) -> bool
    ensures { result ≡ spec.is_one_name name.now idents.now }
{
    match idents {
        [ident] => has_name(ident, name),
        _ => false,
    }
}

fn is_one_import(imports: &[Import]) -> bool
    ensures { result ≡ spec.is_one_import imports.now }
{
    match imports {
        [import] => is_line_import(import),
        _ => false,
    }
}

/// Whether all but the body is as the form wants it.
fn has_frame(program: &dbpl_tree::Program) -> bool
    ensures { result ≡ spec.has_frame program.now }
{
    !is_imported(&program.name)
        && has_name(&program.end_name, program.name.name.as_bytes())
        && is_one_import(program.imports.as_slice())
        && matches!(program.declarations.as_slice(), [])
}

fn small_module(alloc: Global, program: &dbpl_tree::Program) -> Result<Option<Program>, Memory>
    ensures { IfOk result (λ small. small ≡ spec.small_module program.now) }
{
    if !has_frame(program) {
        return Ok(None);
    }
    let Some(statements) = small_body(alloc, &program.body)? else {
        return Ok(None);
    };
    let name = program.name.name.copy(alloc)?;
    Ok(Some(Program { name, statements }))
}

/// The module that prints lines that this tree is, if it is one.
#[tactic(auto, unfolding(crate::specs::Small::small_of))]
pub fn small(alloc: Global, unit: &Unit) -> Result<Option<Program>, Memory>
    ensures { IfOk result (λ small. small ≡ spec.small_of unit.now) }
{
    match unit {
        Unit::Program(program) => small_module(alloc, program),
        _ => Ok(None),
    }
}
