//! Whether a program is of the form that is built so far.
ghost use Rattle.std.specs.Prelude.{◌≡◌, ◌&&◌, IsTrue};
ghost use Rattle.std.specs.List.{list_all};
ghost use Rattle.dbpl_stored_program.specs.Programs.{are_rows as are_rows_of, is_cardinal as is_cardinal_type, is_cardinal_field, is_flat as is_flat_type, is_in_cardinal, is_row as is_row_of, is_small_program};
ghost use Rattle.dbpl_value.specs.Databases.{is_kept};
ghost use Rattle.dbpl_value.specs.Types.{element_of as element_of_type, fields_of as fields_of_type, is_record};

use crate::{Insertion, StoredProgram};
use dbpl_base::List;
use dbpl_value::{DbType, Field, element_of, fields_of};

/// Whether a program is of this form, where its relation variable can be kept.
pub fn is_small(program: &StoredProgram) -> bool
    requires kept { IsTrue (is_kept program.now.relation.name program.now.relation.kind) }
    ensures { result ≡ is_small_program program.now }
{
    let t = &program.relation.kind;
    is_flat(t) && are_all_rows(t, program.insertions.as_slice())
}

fn is_flat(t: &DbType) -> bool
    ensures { result ≡ is_flat_type t.now }
{
    match t {
        DbType::Rel(_, record) => is_flat_record(record.get()),
        _ => false,
    }
}

fn is_flat_record(t: &DbType) -> bool
    ensures { result ≡ (is_record t.now && list_all is_cardinal_field (fields_of_type t.now)) }
{
    match t {
        DbType::Rec(fields) => are_cardinals(fields.as_slice()),
        _ => false,
    }
}

fn are_cardinals(fields: &[Field]) -> bool
    ensures { result ≡ list_all is_cardinal_field fields.now }
{
    fields.iter().all(|field| is_cardinal(&field.kind))
}

fn is_cardinal(t: &DbType) -> bool
    ensures { result ≡ is_cardinal_type t.now }
{
    match t {
        DbType::Card => true,
        _ => false,
    }
}

fn are_all_rows(t: &DbType, insertions: &[Insertion]) -> bool
    ensures { result ≡ list_all (are_rows_of t.now) insertions.now }
{
    insertions
        .iter()
        .all(|insertion| are_rows(t, insertion.rows.as_slice()))
}

fn are_rows(t: &DbType, rows: &[List<i64>]) -> bool
    ensures { result ≡ list_all (is_row_of (fields_of_type (element_of_type t.now))) rows.now }
{
    let fields = fields_of(element_of(t));
    rows.iter().all(|row| is_row(fields, row.as_slice()))
}

/// One number of CARDINAL for each field.
fn is_row(fields: &[Field], row: &[i64]) -> bool
    ensures { result ≡ is_row_of fields.now row.now }
{
    row.len() == fields.len() && are_numbers(row)
}

fn are_numbers(row: &[i64]) -> bool
    ensures { result ≡ list_all is_in_cardinal row.now }
{
    row.iter()
        .all(|number| 0 <= *number && *number <= i64::from(u32::MAX))
}
