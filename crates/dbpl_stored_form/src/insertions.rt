//! The statements of a transaction.
ghost use Rattle.std.specs.Prelude.{◌≡◌, ◌∷◌, if◌then◌else◌, IfOk, None, Some};
ghost use Rattle.dbpl_stored_form.specs.Lists.{joined_all, joined};
ghost use Rattle.dbpl_stored_form.specs.Statements as spec;

use crate::Schema;
use crate::aggregates::rows_of;
use crate::expressions::aggregate_named;
use crate::statements::is_nothing;
use dbpl_base::{List, Memory, Place};
use dbpl_stored_program::Insertion;
use dbpl_tree::{ChangeOperator, Designator, Expr, Statement, Statements, is_name};
use std::alloc::Global;

/// The insertion of this set expression.
fn insertion_of(
    alloc: Global,
    schema: &Schema,
    place: Place,
    expr: &Expr,
) -> Result<Option<Insertion>, Memory>
    ensures { IfOk result (λ insertion. insertion ≡ spec.insertion_of schema.now place expr.now) }
{
    let Some(set) = aggregate_named(expr, schema.relation.as_bytes()) else {
        return Ok(None);
    };
    let Some(rows) = rows_of(alloc, schema, set.elements.as_slice())? else {
        return Ok(None);
    };
    Ok(Some(Insertion {
        set_place: set.kind.first.place,
        place,
        rows,
    }))
}

/// Whether this target is added to.
fn is_added_to(schema: &Schema, target: &Designator, operator: ChangeOperator) -> bool
    ensures { result ≡ spec.is_added_to schema.now target.now operator }
{
    is_name(target, schema.variable.as_bytes()) && matches!(operator, ChangeOperator::Add)
}

fn insertion_in(
    alloc: Global,
    schema: &Schema,
    statement: &Statement,
) -> Result<Option<Insertion>, Memory>
    ensures { IfOk result (λ insertion. insertion ≡ spec.insertion_in schema.now statement.now) }
{
    match statement {
        Statement::Change(target, place, operator, expr)
            if is_added_to(schema, target, *operator) => {
            insertion_of(alloc, schema, *place, expr.get())
        }
        _ => Ok(None),
    }
}

fn add_insertion(
    alloc: Global,
    schema: &Schema,
    statement: &Statement,
    insertions: &mut List<Insertion>,
) -> Result<bool, Memory>
    ensures { IfOk result (λ added. joined (Some insertions.old) (spec.insertions_in schema.now statement.now) ≡ (if added then Some insertions.new else None)) }
{
    if is_nothing(statement) {
        return Ok(true);
    }
    match insertion_in(alloc, schema, statement)? {
        Some(insertion) => {
            insertions.push(insertion)?;
            Ok(true)
        }
        None => Ok(false),
    }
}

fn insertions_of(
    alloc: Global,
    schema: &Schema,
    first: &Statement,
    others: &[Statement],
) -> Result<Option<List<Insertion>>, Memory>
    ensures { IfOk result (λ insertions. insertions ≡ joined_all (spec.insertions_in schema.now) (first.now ∷ others.now)) }
{
    let mut insertions = List::new(alloc);
    if !add_insertion(alloc, schema, first, &mut insertions)? {
        return Ok(None);
    }
    for statement in others {
        if !add_insertion(alloc, schema, statement, &mut insertions)? {
            return Ok(None);
        }
    }
    Ok(Some(insertions))
}

/// The insertions that the statements of a transaction are.
pub(crate) fn all_insertions(
    alloc: Global,
    schema: &Schema,
    body: &Option<Statements>,
) -> Result<Option<List<Insertion>>, Memory>
    ensures { IfOk result (λ insertions. insertions ≡ joined_all (spec.insertions_in schema.now) (spec.statements_of body.now)) }
{
    match body {
        Some(block) => insertions_of(alloc, schema, block.first.get(), block.others.as_slice()),
        None => Ok(Some(List::new(alloc))),
    }
}
