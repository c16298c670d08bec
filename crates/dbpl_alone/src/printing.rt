// The run of a module that prints lines: each byte is said by a call of its own, and at the end all is written out.
ghost use Rattle.std.specs.Prelude.{◌≡◌, ℕ, map, take, IsTrue, OnErr, OnOk};
ghost use Rattle.std.specs.List.{flat_map};
ghost use Rattle.dbpl_alone.specs.Meaning.{printed_by};
ghost use Rattle.dbpl_world.specs.Counts.{OnlySayFaults, Rose};
ghost use Rattle.dbpl_world.specs.History.{Said, more};

use crate::{Program, Statement};
use dbpl_stored_program::before_zero;
use dbpl_world::{Failed, World, say_all};

/// Says all that the module prints, and has it written out.
pub(crate) fn print_program<W: World>(program: &Program, world: &mut W) -> Result<(), Failed>
    ensures ok { IsTrue W.tells → OnOk result (W.history world.new ≡ more (W.history world.old) (map Said (flat_map printed_by program.now.statements))) }
    ensures err { IsTrue W.tells → OnErr result ((n : ℕ) × (W.history world.new ≡ more (W.history world.old) (map Said (take n (flat_map printed_by program.now.statements))))) }
    ensures same { W.mounted world.new ≡ W.mounted world.old }
    ensures counts { OnlySayFaults (W.counts world.old) (W.counts world.new) }
    ensures fine { OnOk result ((W.counts world.new).say_faults ≡ (W.counts world.old).say_faults) }
    ensures cause { OnErr result (Rose (W.counts world.old).say_faults (W.counts world.new).say_faults) }
{
    for statement in program.statements.as_slice() {
        print_statement(statement, world)?;
    }
    world.flush()
}

fn print_statement<W: World>(statement: &Statement, world: &mut W) -> Result<(), Failed>
    ensures ok { IsTrue W.tells → OnOk result (W.history world.new ≡ more (W.history world.old) (map Said (printed_by statement.now))) }
    ensures err { IsTrue W.tells → OnErr result ((n : ℕ) × (W.history world.new ≡ more (W.history world.old) (map Said (take n (printed_by statement.now))))) }
    ensures same { W.mounted world.new ≡ W.mounted world.old }
    ensures counts { OnlySayFaults (W.counts world.old) (W.counts world.new) }
    ensures fine { OnOk result ((W.counts world.new).say_faults ≡ (W.counts world.old).say_faults) }
    ensures cause { OnErr result (Rose (W.counts world.old).say_faults (W.counts world.new).say_faults) }
{
    match statement {
        Statement::WriteLn => say_all(world, b"\n"),
        Statement::WriteString(text) => say_all(world, before_zero(text.as_bytes())),
    }
}
