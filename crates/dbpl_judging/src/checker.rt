//! `Checker`: what goes through all functions that judge.
ghost use Rattle.std.specs.Prelude.{◌≡◌, [], ◌∷◌, ◌++◌, IfOk, OnOk, None, Some};
ghost use Rattle.dbpl_base.specs.Places.{start_of};
ghost use Rattle.dbpl_judging.specs.Checking.{noted, noting};
ghost use Rattle.dbpl_judging.specs.Judgements.{asks as asked, breach_of};
ghost use Rattle.dbpl_judging.specs.Stages.{in_scope};
ghost use Rattle.dbpl_symbols.specs.Scopes.{entered, left, with_pair};

use crate::nodes::room_behind;
use crate::{Heading, Setting};
use dbpl_base::limits::TYPE_NODES;
use dbpl_base::{Memory, Name, Place, Refusal, Shared};
use dbpl_symbols::{Decl, Origin};
use dbpl_value::{DbType, copy_type};
use std::alloc::Global;
use std::marker::Model;
use std::mem;

/// The rule on what isn't built yet.
const UNBUILT: u16 = 109;

/// The setting of the phrase that is judged, and the least breach so far. Beside them it has, unseen by contracts, how many
/// nodes of types may still be built: past these is want of memory.
#[derive(Drop)]
pub struct Checker {
    setting: Setting,
    least: Option<Refusal>,
    room: u32,
}

impl Model for Checker {
    ghost use Rattle.std.specs.Coded.{codes};
    ghost use Rattle.dbpl_judging.specs.Checking.{Checking};
    ghost use Rattle.dbpl_judging.specs.contracts.setting.Setting as settings;

    ghost Value = { Checking };

    ghost coded = { Prim.hlevel (codes, settings.the_row.coded) };

    ghost view = { λ checker. record { setting = checker.setting; least = checker.least } };
}

impl Checker {
    /// A checker to which nothing was noted yet.
    pub fn new(setting: Setting) -> Checker
        ensures { result ≡ record { setting = setting; least = None } }
    {
        Checker {
            setting,
            least: None,
            room: TYPE_NODES,
        }
    }

    pub fn setting(&self) -> &Setting
        ensures { result.now ≡ self.now.setting }
    {
        &self.setting
    }

    pub fn least(&self) -> Option<Refusal>
        ensures { result ≡ self.now.least }
    {
        self.least
    }

    /// Asks whether a rule holds. Where it doesn't, that is noted.
    pub fn asks(&mut self, rule: u16, place: Place, holds: bool) -> bool
        ensures answer { result ≡ holds }
        ensures noted { self.new ≡ noting (asked rule place holds).breaches self.old }
    {
        if !holds {
            self.breaks(rule, place);
        }
        holds
    }

    /// Notes that a rule is broken.
    pub fn breaks(&mut self, rule: u16, place: Place)
        ensures { self.new ≡ noting (breach_of rule place ∷ []) self.old }
    {
        let breach = Refusal { place, rule };
        self.least = Some(lesser(self.least, breach));
    }

    /// Notes a form that isn't built yet.
    pub fn unbuilt(&mut self)
        ensures { self.new ≡ noting (breach_of UNBUILT (start_of 0) ∷ []) self.old }
    {
        let place = Place {
            unit: 0,
            line: 1,
            col: 1,
        };
        self.breaks(UNBUILT, place);
    }

    /// Begins a level of the scope.
    pub fn enter(&mut self) -> Result<(), Memory>
        ensures { OnOk result (self.new ≡ in_scope (entered self.old.setting.scope) self.old) }
    {
        self.setting.scope.enter()
    }

    /// Leaves the last level of the scope.
    pub fn leave(&mut self)
        ensures { self.new ≡ in_scope (left self.old.setting.scope) self.old }
    {
        self.setting.scope.leave();
    }

    /// Declares a name at the last level of the scope, whether or not that has it: it means this declaration from now on.
    pub fn declare(
        &mut self,
        alloc: Global,
        name: &Name,
        decl: Decl,
        origin: Origin,
    ) -> Result<(), Memory>
        ensures { OnOk result (self.new ≡ in_scope (with_pair (record { name = name.now; decl = decl; origin = origin }) self.old.setting.scope) self.old) }
    {
        self.setting.scope.add(alloc, name, decl, origin)
    }

    /// Says in which routine stands what is judged from now on, by its heading, or in none. Answers what stood there.
    pub fn set_heading(&mut self, heading: Option<Heading>) -> Option<Heading>
        ensures before { result ≡ self.old.setting.heading }
        ensures after { self.new ≡ record self.old { setting = record self.old.setting { heading = heading } } }
    {
        mem::replace(&mut self.setting.heading, heading)
    }

    /// Says whether a LOOP stands around what is judged from now on. Answers whether one did before.
    pub fn set_in_loop(&mut self, in_loop: bool) -> bool
        ensures before { result ≡ self.old.setting.in_loop }
        ensures after { self.new ≡ record self.old { setting = record self.old.setting { in_loop = in_loop } } }
    {
        mem::replace(&mut self.setting.in_loop, in_loop)
    }

    /// Takes the room for so many nodes of types.
    pub fn take_room(&mut self, nodes: u32) -> Result<(), Memory>
        ensures { self.new ≡ self.old }
    {
        match self.room.checked_sub(nodes) {
            Some(room) => {
                self.room = room;
                Ok(())
            }
            None => Err(Memory),
        }
    }

    /// An owner of a copy of the type, where there is room for its nodes. It takes memory only where there is.
    pub fn copy_type(&mut self, alloc: Global, t: &DbType) -> Result<Shared<DbType>, Memory>
        ensures copied { IfOk result (λ copied. copied ≡ t.now) }
        ensures same { self.new ≡ self.old }
    {
        match room_behind(self.room, t) {
            Some(room) => {
                self.room = room;
                Shared::new(alloc, copy_type(alloc, t)?)
            }
            None => Err(Memory),
        }
    }
}

/// The lesser of the least breach so far and one more.
fn lesser(found: Option<Refusal>, breach: Refusal) -> Refusal
    ensures { Some result ≡ noted found breach }
{
    match found {
        Some(found) => {
            if breach.is_before(&found) {
                breach
            } else {
                found
            }
        }
        None => breach,
    }
}
