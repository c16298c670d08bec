//! `Scope`: the declarations that stand before a phrase, level by level.
ghost use Rattle.std.specs.Prelude.{◌≡◌, ◌↔◌, ◌+◌, ◌++◌, [], ◌∷◌, ℕ, List as Seq, filter, flat_map, length, reverse, Err, IfOk, IsTrue, OnErr, OnOk};
ghost use Rattle.std.specs.Option.{option_copied};
ghost use Rattle.dbpl_symbols.specs.Interfaces.{is_own};
ghost use Rattle.dbpl_symbols.specs.Parameters.{param_pair, with_params};
ghost use Rattle.dbpl_symbols.specs.Scopes.{empty_scope, entered, found, innermost, with_level, is_declared, last_level, last_start as last_start_of, left, levels, seen, with_last, with_pair};
ghost use Rattle.dbpl_symbols.specs.StandardNames.{own};
ghost use Rattle.dbpl_symbols.specs.declared.declare_err.DeclareErr.TheVariants as refusals;
ghost use Rattle.dbpl_symbols.specs.declared.pair.Pair.{Pair as AnyPair};

use crate::held::Held;
use crate::places::{add, copy_own, cut, find, from};
use crate::{Decl, DeclareErr, Origin, Pair, Sort};
use dbpl_base::{List, Memory, Name};
use dbpl_value::{Head, Param};
use std::alloc::Global;
use std::collections::BTreeMap;
use std::marker::Model;

/// Declarations in the order of the text, at levels that stand inside one another.
#[derive(Drop)]
pub struct Scope {
    held: List<Held>,
    /// Where each level but the first starts.
    starts: List<usize>,
    /// Where the latest declaration of each name stands.
    places: BTreeMap<Name, usize>,
}

impl Model for Scope {
    ghost use Rattle.std.specs.Coded.{codes};
    ghost use Rattle.dbpl_symbols.specs.Places.{IsHeld, pairs_of};
    ghost use Rattle.dbpl_symbols.specs.Scopes.{Declarations};
    ghost use Rattle.dbpl_symbols.specs.contracts.pair.Pair as pair;

    ghost Value = { Declarations };

    ghost coded = { Prim.hlevel (codes, pair.the_row.coded) };

    ghost view = { λ scope. record { pairs = pairs_of scope.held; starts = scope.starts } };

    ghost invariant = { λ scope. IsHeld scope.held scope.starts scope.places };
}

impl Scope {
    /// A scope with one level, which is empty.
    pub(crate) fn new(alloc: Global) -> Scope
        ensures { result ≡ empty_scope }
    {
        let held = List::new(alloc);
        let starts = List::new(alloc);
        let places = BTreeMap::new(alloc);
        Scope {
            held,
            starts,
            places,
        }
    }

    /// The declaration that the name means, and none exactly where no level has the name. It takes logarithmic time.
    pub fn look(&self, name: &Name) -> Option<&Decl>
        ensures { option_copied result ≡ seen name.now self.now }
    {
        match find(&self.held, &self.places, name) {
            Some(held) => Some(&held.pair.decl),
            None => None,
        }
    }

    /// Whether the last level has the name. It takes logarithmic time.
    pub fn has(&self, name: &Name) -> bool
        ensures { result ≡ is_declared name.now self.now }
    {
        let start = self.last_start();
        match self.places.get(name) {
            Some(place) => start <= *place,
            None => false,
        }
    }

    /// Where the last level starts.
    fn last_start(&self) -> usize
        ensures { result ≡ last_start_of self.now }
    {
        match self.starts.as_slice().last() {
            Some(start) => *start,
            None => 0,
        }
    }

    /// Copies of the declarations that were made at the last level.
    pub(crate) fn own_pairs(&self, alloc: Global) -> Result<List<Pair>, Memory>
        ensures { IfOk result (λ pairs. pairs ≡ filter is_own (last_level self.now)) }
    {
        let start = self.last_start();
        let level = from(self.held.as_slice(), start);
        let pairs = copy_own(alloc, level)?;
        Ok(pairs)
    }

    /// Declares the name at the last level, unless that has it. It takes logarithmic time.
    pub fn declare(&mut self, alloc: Global, name: &Name, decl: Decl) -> Result<(), DeclareErr>
        ensures ok { OnOk result (self.new ≡ with_pair (own name.now decl) self.old) }
        ensures err { OnErr result (self.new ≡ self.old) }
        ensures twice { (result ≡ Err refusals.Twice) ↔ IsTrue (is_declared name.now self.old) }
    {
        if self.has(name) {
            return Err(DeclareErr::Twice);
        }
        self.add(alloc, name, decl, Origin::Declared)?;
        Ok(())
    }

    /// Adds a declaration to the last level, whether or not that has the name. From then on the name means this one. It
    /// takes logarithmic time.
    pub fn add(
        &mut self,
        alloc: Global,
        name: &Name,
        decl: Decl,
        origin: Origin,
    ) -> Result<(), Memory>
        ensures ok { OnOk result (self.new ≡ with_pair (record { name = name.now; decl = decl; origin = origin }) self.old) }
        ensures err { OnErr result (self.new ≡ self.old) }
    {
        let name = name.copy(alloc)?;
        let pair = Pair { name, decl, origin };
        add(&mut self.held, &mut self.places, alloc, pair)
    }

    /// Adds the parameters of a routine to the last level, numbered from 0. Where memory is wanting some of them may be
    /// added.
    pub fn add_params(&mut self, alloc: Global, head: &Head) -> Result<(), Memory>
        ensures { OnOk result (self.new ≡ with_params head.now self.old) }
    {
        let mut number = 0;
        for param in head.params.as_slice() {
            self.add_param(alloc, number, param)?;
            number = after(number)?;
        }
        Ok(())
    }

    /// Adds the parameter of this number to the last level.
    fn add_param(&mut self, alloc: Global, number: u32, param: &Param) -> Result<(), Memory>
        ensures { OnOk result (self.new ≡ with_pair (param_pair number param.now) self.old) }
    {
        let kind = param.kind.share()?;
        let decl = Decl::Variable(kind, Sort::Param(number));
        self.add(alloc, &param.name, decl, Origin::Declared)
    }

    /// Adds an empty level.
    pub fn enter(&mut self) -> Result<(), Memory>
        ensures ok { OnOk result (self.new ≡ entered self.old) }
        ensures err { OnErr result (self.new ≡ self.old) }
    {
        self.starts.push(self.held.len())
    }

    /// Removes the last level with its declarations. The first level stays.
    pub fn leave(&mut self)
        ensures { self.new ≡ left self.old }
    {
        if let Some(start) = self.starts.pop() {
            cut(&mut self.held, &mut self.places, start);
        }
    }

    /// A law, which does nothing. The declarations of a scope are those of its levels, one behind the other; there is
    /// one level more than starts; a declaration stands at the last level; to enter adds a level, which has what is
    /// declared from then on; a name means the latest declaration at the innermost level that has it.
    pub fn stands_in_levels(&self)
        ensures joined { flat_map (λ level. level) (levels self.now) ≡ self.now.pairs }
        ensures count { length (levels self.now) ≡ length self.now.starts + 1 }
        ensures declared { (pair : AnyPair) → levels (with_pair pair self.now) ≡ with_last pair (levels self.now) }
        ensures entered { (more : Seq AnyPair) → levels (with_level more self.now) ≡ levels self.now ++ more ∷ [] }
        ensures found { (name : Seq ℕ) → found name self.now ≡ innermost name (reverse (levels self.now)) }
    {
        let _ = &self.held;
    }
}

/// The next number, where it is one of a frame.
fn after(number: u32) -> Result<u32, Memory>
    ensures { IfOk result (λ next. next ≡ number + 1) }
{
    match number.checked_add(1) {
        Some(next) => Ok(next),
        None => Err(Memory),
    }
}
