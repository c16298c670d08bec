//! The work of a transaction, on the relation that its statements change.
ghost use Rattle.std.specs.Prelude.{◌≡◌, ◌≢◌, Err, IfErr, IfOk, IsTrue, Ok, OnErr, OnOk};
ghost use Rattle.dbpl_stored_program.specs.Insertions.{inserted, inserted_all, refusal_kind, right_side as right_side_of, trap};
ghost use Rattle.dbpl_stored_program.specs.Programs.{are_rows, is_flat, is_small_program};
ghost use Rattle.dbpl_core.specs.declared.trap.Trap.{Trap as AnyTrap};
ghost use Rattle.dbpl_value.specs.Databases.{are_small};
ghost use Rattle.dbpl_value.specs.Values.{is_of};

use crate::sets::set_of;
use crate::{Insertion, RunErr, SetErr, StoredProgram};
use dbpl_base::Place;
use dbpl_core::Trap;
use dbpl_relation::{ChangeErr, insert};
use dbpl_value::{DbType, Value, copy};
use std::alloc::Global;

/// The relation after the transaction, from the one before it. Where a statement traps there is none.
pub fn transacted(alloc: Global, program: &StoredProgram, before: &Value) -> Result<Value, RunErr>
    requires small { IsTrue (is_small_program program.now) }
    requires relation { IsTrue (is_of program.now.relation.kind before.now) }
    ensures after { IfOk result (λ after.
        inserted_all program.now.relation.kind program.now.insertions before.now ≡ Ok after) }
    ensures trap { (trap : AnyTrap) → result ≡ Err (RunErr.Trap trap) →
        inserted_all program.now.relation.kind program.now.insertions before.now ≡ Err trap }
    ensures of_type { IfOk result (λ after. IsTrue (is_of program.now.relation.kind after)) }
    ensures are_small { IfOk result (λ after. IsTrue (are_small program.now.relation.kind after)) }
{
    let mut relation = copy(alloc, before)?;
    for insertion in program.insertions.as_slice() {
        put_set(alloc, &program.relation.kind, insertion, &mut relation)?;
    }
    Ok(relation)
}

/// Does one insertion.
fn put_set(
    alloc: Global,
    t: &DbType,
    insertion: &Insertion,
    relation: &mut Value,
) -> Result<(), RunErr>
    requires flat { IsTrue (is_flat t.now) }
    requires rows { IsTrue (are_rows t.now insertion.now) }
    requires relation { IsTrue (is_of t.now relation.old) }
    ensures ok { OnOk result (inserted t.now insertion.now relation.old ≡ Ok relation.new) }
    ensures trap { IfErr result (λ why. (trap : AnyTrap) → why ≡ RunErr.Trap trap →
        inserted t.now insertion.now relation.old ≡ Err trap) }
    ensures of_type { IsTrue (is_of t.now relation.new) }
{
    let set = right_side(alloc, t, insertion)?;
    match insert(alloc, t, relation, &set) {
        Ok(()) => Ok(()),
        Err(refusal) => Err(refused(insertion.place, refusal)),
    }
}

/// The set that an insertion adds.
fn right_side(alloc: Global, t: &DbType, insertion: &Insertion) -> Result<Value, RunErr>
    requires flat { IsTrue (is_flat t.now) }
    requires rows { IsTrue (are_rows t.now insertion.now) }
    ensures ok { IfOk result (λ set. right_side_of t.now insertion.now ≡ Ok set) }
    ensures trap { IfErr result (λ why. (trap : AnyTrap) → why ≡ RunErr.Trap trap →
        right_side_of t.now insertion.now ≡ Err trap) }
    ensures of_type { IfOk result (λ set. IsTrue (is_of t.now set)) }
{
    match set_of(alloc, t, insertion.rows.as_slice()) {
        Ok(set) => Ok(set),
        Err(SetErr::Memory) => Err(RunErr::Memory),
        Err(SetErr::Clash) => Err(RunErr::Trap(Trap {
            kind: 9,
            place: insertion.set_place,
        })),
    }
}

/// What a refused change of a relation comes to at this operator.
fn refused(place: Place, refusal: ChangeErr) -> RunErr
    ensures memory { refusal ≡ ChangeErr.Memory → result ≡ RunErr.Memory }
    ensures trap { refusal ≢ ChangeErr.Memory → result ≡ RunErr.Trap (trap (refusal_kind refusal) place) }
{
    match refusal {
        ChangeErr::Clash(_) => RunErr::Trap(Trap { kind: 9, place }),
        ChangeErr::Outside(_) => RunErr::Trap(Trap { kind: 11, place }),
        ChangeErr::Memory => RunErr::Memory,
    }
}
