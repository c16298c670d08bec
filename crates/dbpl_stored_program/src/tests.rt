//! Transactions over D.r: RELATION pos OF RECORD pos, qty: CARDINAL END.
ghost use Rattle.std.specs.Prelude.{◌≡◌, IfSome, IsTrue};
ghost use Rattle.dbpl_stored_program.specs.Programs.{is_small_program};
ghost use Rattle.dbpl_value.specs.Databases.{is_bound};
ghost use Rattle.dbpl_value.specs.Values.{is_of};

use crate::{Insertion, RunErr, StoredProgram, is_small, transacted};
use dbpl_base::{List, Memory, Place};
use dbpl_core::Trap;
use dbpl_database::read_database;
use dbpl_value::{Bound, Value, field_of, number_of, parts_of};
use std::alloc::Global;
use std::test::Fail;

/// D.r without records, as a database
const SUBS: &[u8] =
    b"\x01\0\0\0\x03\0\0\0D.r\x21\0\0\0\x09\x01\0\0\0\x03\0\0\0pos\x08\x02\0\0\0\x03\0\0\0pos\x02\x03\0\0\0qty\x02\x04\0\0\0\0\0\0\0";

type Rows<'a> = &'a [[i64; 2]];

/// The set expression of the insertion with this number, from 1, and its operator.
fn set_place(line: u32) -> Place {
    Place {
        unit: 1,
        line,
        col: 6,
    }
}

fn operator(line: u32) -> Place {
    Place {
        unit: 1,
        line,
        col: 3,
    }
}

fn insertion(alloc: Global, line: u32, rows: Rows) -> Result<Insertion, Memory> {
    let mut lists = List::new(alloc);
    for row in rows {
        lists.push(List::from_slice(alloc, row)?)?;
    }
    Ok(Insertion {
        set_place: set_place(line),
        place: operator(line),
        rows: lists,
    })
}

fn insertions(alloc: Global, sets: &[Rows]) -> Result<List<Insertion>, Memory> {
    let mut made = List::new(alloc);
    let mut line: u32 = 0;
    for rows in sets {
        line = line.saturating_add(1);
        made.push(insertion(alloc, line, rows)?)?;
    }
    Ok(made)
}

/// The relation variable.
fn variable(alloc: Global) -> Option<Bound>
    ensures { IfSome result (λ bound. IsTrue (is_bound bound)) }
{
    match read_database(alloc, SUBS) {
        Ok(mut database) => database.pop(),
        Err(_) => None,
    }
}

/// What the transaction makes of the relation without records, where the program is of the form that is built.
fn run(alloc: Global, sets: &[Rows]) -> Option<Result<Value, RunErr>> {
    let Bound { name, kind, rel } = variable(alloc)?;
    let program = StoredProgram {
        relation: field_of(name, kind),
        insertions: insertions(alloc, sets).ok()?,
        body: List::new(alloc),
    };
    if is_small(&program) {
        Some(transacted(alloc, &program, &rel))
    } else {
        None
    }
}

fn is_record(element: &Value, row: &[i64; 2]) -> bool {
    match parts_of(element) {
        [position, quantity] => number_of(position) == row[0] && number_of(quantity) == row[1],
        _ => false,
    }
}

fn are_records(relation: &Value, rows: Rows) -> bool {
    let records = parts_of(relation);
    if records.len() != rows.len() {
        return false;
    }
    for i in 0..rows.len() {
        if !is_record(&records[i], &rows[i]) {
            return false;
        }
    }
    true
}

fn comes_to(alloc: Global, sets: &[Rows], wanted: Result<Rows, Place>) -> bool {
    match (run(alloc, sets), wanted) {
        (Some(Ok(relation)), Ok(rows)) => are_records(&relation, rows),
        (Some(Err(RunErr::Trap(trap))), Err(place)) => trap == Trap { kind: 9, place },
        _ => false,
    }
}

#[test]
fn transactions(rt: HostRuntime) -> Result<(), Fail> {
    let alloc = rt.alloc();
    let cases: [(&[Rows], Result<Rows, Place>); 9] = [
        (&[], Ok(&[])),
        (&[&[[1, 5]]], Ok(&[[1, 5]])),
        (&[&[[2, 7], [1, 5], [2, 7]]], Ok(&[[1, 5], [2, 7]])),
        (&[&[[1, 5]], &[[1, 5]]], Ok(&[[1, 5]])),
        (&[&[[3, 0]], &[[1, 5], [3, 0]]], Ok(&[[1, 5], [3, 0]])),
        (&[&[[1, 5], [1, 6]]], Err(set_place(1))),
        (&[&[[1, 5]], &[[2, 5], [1, 6]]], Err(operator(2))),
        (&[&[[1, 5]], &[[1, 6], [1, 7]]], Err(set_place(2))),
        (&[&[[4294967295, 0]]], Ok(&[[4294967295, 0]])),
    ];
    for (number, (sets, wanted)) in cases.iter().enumerate() {
        assert!(rt; comes_to(alloc, sets, *wanted), "case {number}");
    }
    Ok(())
}

#[test]
fn other_rows(rt: HostRuntime) -> Result<(), Fail> {
    let alloc = rt.alloc();
    let cases: [&[Rows]; 2] = [&[&[[4294967296, 0]]], &[&[[1, -1]]]];
    for sets in cases {
        assert!(rt; run(alloc, sets).is_none());
    }
    Ok(())
}
