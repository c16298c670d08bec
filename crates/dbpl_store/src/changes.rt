//! What a transaction does to the database in memory.
ghost use Rattle.std.specs.Prelude.{◌≡◌, false, IfOk, IfSome, IsSome, IsTrue, MatchBool, OnErr, OnOk, Some, true};
ghost use Rattle.std.specs.Option.{option_map};
ghost use Rattle.dbpl_value.specs.Binding.{Binds, Differs, holding};
ghost use Rattle.dbpl_value.specs.Databases.{are_small, is_kept};
ghost use Rattle.dbpl_store.specs.Stores.{IsBoundTo, bound_in, committed_of, database_in, is_running, with_bound_relation};
ghost use Rattle.dbpl_value.specs.Values.{is_of};

use crate::Store;
use crate::spelled::spelled;
use dbpl_base::Memory;
use dbpl_database::{add_empty, place_of, put_relation};
use dbpl_value::{Field, Value, same_type};
use std::alloc::Global;

impl Store {
    /// Binds the program's relation variable, which the other calls speak of. Where it is absent it is added, empty.
    /// The answer is whether it is bound: it isn't where its name is there with another type.
    pub fn bind(&mut self, alloc: Global, rel: &Field) -> Result<bool, Memory>
        requires kept { IsTrue (is_kept rel.now.name rel.now.kind) }
        ensures bound { IfOk result (λ is_bound. MatchBool is_bound
            (Binds rel.now (database_in self.old) (database_in self.new) × IsBoundTo rel.now self.new)
            (Differs rel.now (database_in self.old) × (database_in self.new ≡ database_in self.old))) }
        ensures kept { OnErr result (database_in self.new ≡ database_in self.old) }
        ensures refused { IfOk result (λ is_bound. is_bound ≡ false → bound_in self.new ≡ bound_in self.old) }
        ensures bound_kept { OnErr result (bound_in self.new ≡ bound_in self.old) }
        ensures committed { committed_of self.new ≡ committed_of self.old }
        ensures running { is_running self.new ≡ is_running self.old }
        ensures log { self.new.log ≡ self.old.log }
    {
        if let Some(at) = place_of(self.database.as_slice(), &rel.name) {
            if !same_type(&self.database.as_slice()[at].kind, &rel.kind) {
                return Ok(false);
            }
            self.bound = Some(at);
            return Ok(true);
        }
        let at = add_empty(alloc, &mut self.database, rel)?;
        match spelled(alloc, self.database.as_slice()) {
            Ok(bytes) => {
                self.changed = Some(bytes);
                self.bound = Some(at);
                Ok(true)
            }
            Err(Memory) => {
                let _ = self.database.remove(at);
                Err(Memory)
            }
        }
    }

    /// Begins a transaction.
    pub fn begin(&mut self)
        requires still { is_running self.old ≡ false }
        ensures running { is_running self.new ≡ true }
        ensures database { database_in self.new ≡ database_in self.old }
        ensures committed { committed_of self.new ≡ committed_of self.old }
        ensures bound { bound_in self.new ≡ bound_in self.old }
        ensures log { self.new.log ≡ self.old.log }
    {
        self.running = true;
    }

    /// The relation in the bound variable.
    pub fn whole(&self) -> &Value
        requires bound { IsSome (bound_in self.now) }
        ensures whole { option_map (λ bound. bound.rel) (bound_in self.now) ≡ Some result.now }
        ensures of { IfSome (bound_in self.now) (λ bound.
            IsTrue (is_of bound.kind result.now) × IsTrue (are_small bound.kind result.now)) }
    {
        match self.bound {
            Some(at) => &self.database.as_slice()[at].rel,
            None => unreachable!(),
        }
    }

    /// Puts a relation in the bound variable, and takes the memory that a commit of it needs.
    pub fn replace_all(&mut self, alloc: Global, all: Value) -> Result<(), Memory>
        requires running { is_running self.old ≡ true }
        requires bound { IsSome (bound_in self.old) }
        requires fits { IfSome (bound_in self.old) (λ bound.
            IsTrue (is_of bound.kind all) × IsTrue (are_small bound.kind all)) }
        ensures ok { OnOk result (database_in self.new ≡ with_bound_relation all self.old) }
        ensures kept { OnErr result (database_in self.new ≡ database_in self.old) }
        ensures committed { committed_of self.new ≡ committed_of self.old }
        ensures running { is_running self.new ≡ true }
        ensures held { OnOk result (bound_in self.new ≡ option_map (holding all) (bound_in self.old)) }
        ensures bound { OnErr result (bound_in self.new ≡ bound_in self.old) }
        ensures log { self.new.log ≡ self.old.log }
    {
        let Some(at) = self.bound else { unreachable!() };
        let before = put_relation(alloc, &mut self.database, at, all);
        match spelled(alloc, self.database.as_slice()) {
            Ok(bytes) => {
                self.changed = Some(bytes);
                Ok(())
            }
            Err(Memory) => {
                let _ = put_relation(alloc, &mut self.database, at, before);
                Err(Memory)
            }
        }
    }
}
