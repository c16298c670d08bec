//! The test of two trees for a database module and a program of the form.
ghost use Rattle.std.specs.Prelude.{◌≡◌, IfOk};
ghost use Rattle.std.specs.Option.{option_copied};
ghost use Rattle.dbpl_stored_form.specs.Programs as spec;

use crate::Schema;
use crate::actions::all_actions;
use crate::data_modules::schema_of;
use crate::imports::{are_lines, imported_names};
use crate::insertions::all_insertions;
use crate::storing::{stands_in, variable_of};
use dbpl_base::{Memory, Name};
use dbpl_stored_program::StoredProgram;
use dbpl_tree::{DataUnit, Decl, Program, Routine, RoutineWord, Signature, Unit, has_name};
use dbpl_value::are_different;
use std::alloc::Global;

/// Neither parameters nor a result.
fn is_bare(signature: &Option<Signature>) -> bool
    ensures { result ≡ spec.is_bare signature.now }
{
    match signature {
        Some(signature) => {
            matches!(signature.params.sections.as_slice(), []) && signature.result.is_none()
        }
        None => true,
    }
}

fn is_transaction(routine: &Routine) -> bool
    ensures { result ≡ spec.is_transaction routine.now }
{
    let heading = &routine.heading;
    matches!(heading.word, RoutineWord::Transaction)
        && is_bare(&heading.signature)
        && matches!(routine.declarations.as_slice(), [])
        && has_name(&routine.end_name, heading.name.name.as_bytes())
}

/// The one transaction that is declared, if there is nothing else.
fn transaction_in(declarations: &[Decl]) -> Option<&Routine>
    ensures { option_copied result ≡ spec.transaction_in declarations.now }
{
    match declarations {
        [Decl::Routine(routine)] if is_transaction(routine.get()) => Some(routine.get()),
        _ => None,
    }
}

/// Whether the program has a name of its own, and gives it twice.
#[tactic(auto, unfolding(dbpl_tree::specs::Words::in_out))]
fn is_titled(schema: &Schema, program: &Program) -> bool
    ensures { result ≡ spec.is_titled schema.now program.now }
{
    has_name(&program.end_name, program.name.name.as_bytes())
        && !has_name(&program.name, b"InOut")
        && !has_name(&program.name, schema.unit.as_bytes())
}

/// Whether no name is declared twice, and the program imports none that is its own.
fn are_sound_names(alloc: Global, program: &Program, transaction: &Name) -> Result<bool, Memory>
    ensures { IfOk result (λ answer. answer ≡ spec.are_sound_names program.now transaction.now) }
{
    let mut names = imported_names(alloc, program.imports.as_slice())?;
    if stands_in(&program.name.name, names.as_slice()) {
        return Ok(false);
    }
    names.insert(0, transaction.copy(alloc)?)?;
    are_different(alloc, names.as_slice())
}

/// Whether all but the statements is as the form wants it.
fn has_frame(
    alloc: Global,
    schema: &Schema,
    program: &Program,
    routine: &Routine,
) -> Result<bool, Memory>
    ensures { IfOk result (λ answer. answer ≡ spec.has_frame schema.now program.now routine.now) }
{
    if !is_titled(schema, program) || !are_lines(schema, program.imports.as_slice()) {
        return Ok(false);
    }
    are_sound_names(alloc, program, &routine.heading.name.name)
}

fn with_statements(
    alloc: Global,
    schema: &Schema,
    program: &Program,
    routine: &Routine,
) -> Result<Option<StoredProgram>, Memory>
    ensures { IfOk result (λ found. found ≡ spec.with_statements schema.now program.now routine.now) }
{
    let Some(insertions) = all_insertions(alloc, schema, &routine.body)? else {
        return Ok(None);
    };
    let transaction = &routine.heading.name.name;
    let imports = program.imports.as_slice();
    let Some(body) = all_actions(alloc, transaction, imports, &program.body)? else {
        return Ok(None);
    };
    let relation = variable_of(alloc, schema)?;
    Ok(Some(StoredProgram {
        relation,
        insertions,
        body,
    }))
}

fn program_of(
    alloc: Global,
    schema: &Schema,
    program: &Program,
) -> Result<Option<StoredProgram>, Memory>
    ensures { IfOk result (λ found. found ≡ spec.program_of schema.now program.now) }
{
    let Some(routine) = transaction_in(program.declarations.as_slice()) else {
        return Ok(None);
    };
    if !has_frame(alloc, schema, program, routine)? {
        return Ok(None);
    }
    with_statements(alloc, schema, program, routine)
}

fn program_over(
    alloc: Global,
    database: &DataUnit,
    program: &Program,
) -> Result<Option<StoredProgram>, Memory>
    ensures { IfOk result (λ found. found ≡ spec.program_over database.now program.now) }
{
    match schema_of(alloc, database)? {
        Some(schema) => program_of(alloc, &schema, program),
        None => Ok(None),
    }
}

/// The program that a database module and a program module are, if they are of the form.
#[tactic(auto, unfolding(crate::specs::Programs::stored_of))]
pub fn stored(
    alloc: Global,
    database: &Unit,
    program: &Unit,
) -> Result<Option<StoredProgram>, Memory>
    ensures { IfOk result (λ stored. stored ≡ spec.stored_of database.now program.now) }
{
    match (database, program) {
        (Unit::Data(database), Unit::Program(program)) => program_over(alloc, database, program),
        _ => Ok(None),
    }
}
