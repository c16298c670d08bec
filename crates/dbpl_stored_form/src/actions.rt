//! The statements of the program's body.
ghost use Rattle.std.specs.Prelude.{◌≡◌, ◌∷◌, if◌then◌else◌, IfOk, None, option_map, Some};
ghost use Rattle.dbpl_stored_program.specs.declared.action.Action.TheVariants.{WriteString};
ghost use Rattle.dbpl_stored_form.specs.Lists.{joined_all, joined};
ghost use Rattle.dbpl_stored_form.specs.Statements as spec;
ghost use Rattle.dbpl_tree.specs.Plain.{argument_of as string_in};

use crate::imports::is_imported;
use crate::statements::is_nothing;
use dbpl_base::{List, Memory, Name};
use dbpl_stored_program::Action;
use dbpl_tree::{
    Arguments, BoxedArguments, Designator, Import, Statement, Statements, argument_of, is_name,
};
use std::alloc::Global;

/// A procedure of InOut, called by a name that is imported.
#[tactic(auto, unfolding(dbpl_tree::specs::Words::in_out))]
fn is_call(imports: &[Import], designator: &Designator, name: &[u8]) -> bool
    ensures { result ≡ spec.is_call name.now imports.now designator.now }
{
    is_name(designator, name) && is_imported(imports, b"InOut", name)
}

fn write_string(alloc: Global, arguments: &Arguments) -> Result<Option<Action>, Memory>
    ensures { IfOk result (λ action. action ≡ option_map WriteString (string_in arguments.now)) }
{
    match argument_of(arguments) {
        Some(text) => Ok(Some(Action::WriteString(text.copy(alloc)?))),
        None => Ok(None),
    }
}

/// The action that this call is, where the transaction has this name.
#[tactic(auto, unfolding(dbpl_tree::specs::Words::write_string, dbpl_tree::specs::Words::write_ln))]
fn call_of(
    alloc: Global,
    transaction: &Name,
    imports: &[Import],
    designator: &Designator,
    arguments: &Option<BoxedArguments>,
) -> Result<Option<Action>, Memory>
    ensures { IfOk result (λ action. action ≡ spec.call_of transaction.now imports.now designator.now arguments.now) }
{
    match arguments {
        None if is_name(designator, transaction.as_bytes()) => Ok(Some(Action::Transact)),
        None if is_call(imports, designator, b"WriteLn") => Ok(Some(Action::WriteLn)),
        Some(arguments) if is_call(imports, designator, b"WriteString") => {
            write_string(alloc, arguments.get())
        }
        _ => Ok(None),
    }
}

fn action_in(
    alloc: Global,
    transaction: &Name,
    imports: &[Import],
    statement: &Statement,
) -> Result<Option<Action>, Memory>
    ensures { IfOk result (λ action. action ≡ spec.action_in transaction.now imports.now statement.now) }
{
    match statement {
        Statement::Call(designator, arguments) => {
            call_of(alloc, transaction, imports, designator, arguments)
        }
        _ => Ok(None),
    }
}

fn add_action(
    alloc: Global,
    transaction: &Name,
    imports: &[Import],
    statement: &Statement,
    actions: &mut List<Action>,
) -> Result<bool, Memory>
    ensures { IfOk result (λ added. joined (Some actions.old) (spec.actions_in transaction.now imports.now statement.now) ≡ (if added then Some actions.new else None)) }
{
    if is_nothing(statement) {
        return Ok(true);
    }
    match action_in(alloc, transaction, imports, statement)? {
        Some(action) => {
            actions.push(action)?;
            Ok(true)
        }
        None => Ok(false),
    }
}

fn actions_of(
    alloc: Global,
    transaction: &Name,
    imports: &[Import],
    first: &Statement,
    others: &[Statement],
) -> Result<Option<List<Action>>, Memory>
    ensures { IfOk result (λ actions. actions ≡ joined_all (spec.actions_in transaction.now imports.now) (first.now ∷ others.now)) }
{
    let mut actions = List::new(alloc);
    if !add_action(alloc, transaction, imports, first, &mut actions)? {
        return Ok(None);
    }
    for statement in others {
        if !add_action(alloc, transaction, imports, statement, &mut actions)? {
            return Ok(None);
        }
    }
    Ok(Some(actions))
}

/// The actions that the statements of the program's body are, where the transaction has this name.
pub(crate) fn all_actions(
    alloc: Global,
    transaction: &Name,
    imports: &[Import],
    body: &Option<Statements>,
) -> Result<Option<List<Action>>, Memory>
    ensures { IfOk result (λ actions. actions ≡ joined_all (spec.actions_in transaction.now imports.now) (spec.statements_of body.now)) }
{
    match body {
        Some(block) => actions_of(
            alloc,
            transaction,
            imports,
            block.first.get(),
            block.others.as_slice(),
        ),
        None => Ok(Some(List::new(alloc))),
    }
}
