//! The rows of a set expression `S{R{1, 2}, ..}`.
ghost use Rattle.std.specs.Prelude.{◌≡◌, if◌then◌else◌, IfOk, None, option_map, pos, Some};
ghost use Rattle.std.specs.Option.{option_and_then, option_copied};
ghost use Rattle.dbpl_stored_form.specs.Lists.{joined_all, joined};
ghost use Rattle.dbpl_stored_form.specs.Statements as spec;

use crate::Schema;
use crate::expressions::{aggregate_named, number_of, plain_of};
use dbpl_base::{List, Memory};
use dbpl_tree::{Aggregate, Element};
use std::alloc::Global;

/// The number of CARDINAL that the element is.
fn cardinal_in(element: &Element) -> Option<i64>
    ensures { result ≡ spec.cardinal_in element.now }
{
    let number = number_of(plain_of(element)?)?;
    match u32::try_from(number) {
        Ok(number) => Some(i64::from(number)),
        Err(_) => None,
    }
}

fn add_number(element: &Element, row: &mut List<i64>) -> Result<bool, Memory>
    ensures { IfOk result (λ added. joined (Some row.old) (spec.numbers_in element.now) ≡ (if added then Some row.new else None)) }
{
    match cardinal_in(element) {
        Some(number) => {
            row.push(number)?;
            Ok(true)
        }
        None => Ok(false),
    }
}

fn numbers_of(alloc: Global, elements: &[Element]) -> Result<Option<List<i64>>, Memory>
    ensures { IfOk result (λ row. row ≡ joined_all spec.numbers_in elements.now) }
{
    let mut row = List::new(alloc);
    for element in elements {
        if !add_number(element, &mut row)? {
            return Ok(None);
        }
    }
    Ok(Some(row))
}

/// The numbers of the aggregate, if it has one for each field.
fn row_of(
    alloc: Global,
    schema: &Schema,
    aggregate: &Aggregate,
) -> Result<Option<List<i64>>, Memory>
    ensures { IfOk result (λ row. row ≡ spec.row_of schema.now aggregate.now) }
{
    match numbers_of(alloc, aggregate.elements.as_slice())? {
        Some(row) if row.len() == schema.fields.len() => Ok(Some(row)),
        _ => Ok(None),
    }
}

/// The aggregate R{..} that the element is.
fn element_in<'a>(schema: &Schema, element: &'a Element) -> Option<&'a Aggregate>
    ensures { option_copied result ≡ option_and_then (spec.aggregate_named schema.now.element) (spec.plain_of element.now) }
{
    aggregate_named(plain_of(element)?, schema.element.as_bytes())
}

fn add_row(
    alloc: Global,
    schema: &Schema,
    element: &Element,
    rows: &mut List<List<i64>>,
) -> Result<bool, Memory>
    ensures { IfOk result (λ added. joined (Some rows.old) (spec.rows_in schema.now element.now) ≡ (if added then Some rows.new else None)) }
{
    let Some(aggregate) = element_in(schema, element) else {
        return Ok(false);
    };
    match row_of(alloc, schema, aggregate)? {
        Some(row) => {
            rows.push(row)?;
            Ok(true)
        }
        None => Ok(false),
    }
}

/// The rows of the aggregate, if each of its elements is one.
pub(crate) fn rows_of(
    alloc: Global,
    schema: &Schema,
    elements: &[Element],
) -> Result<Option<List<List<i64>>>, Memory>
    ensures { IfOk result (λ rows. rows ≡ joined_all (spec.rows_in schema.now) elements.now) }
{
    let mut rows = List::new(alloc);
    for element in elements {
        if !add_row(alloc, schema, element, &mut rows)? {
            return Ok(None);
        }
    }
    Ok(Some(rows))
}
