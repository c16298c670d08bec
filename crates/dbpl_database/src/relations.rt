//! The relation that a variable of a database holds.
ghost use Rattle.std.specs.Prelude.{◌≡◌, ◌<◌, length};
ghost use Rattle.dbpl_value.specs.Binding.{with_relation};

use dbpl_base::{List, Name};
use dbpl_value::{Bound, DbType, Value};
use std::alloc::Global;

/// Puts a relation in the place of the one that the variable at `at` holds, and gives that one back. It takes no memory.
pub fn put_relation(alloc: Global, database: &mut List<Bound>, at: usize, relation: Value) -> Value
    requires { at < length database.old }
    ensures put { database.new ≡ with_relation relation at database.old }
    ensures back { with_relation result at database.new ≡ database.old }
{
    let hole = Bound {
        name: Name::from_vec(Vec::new(alloc)),
        kind: DbType::Int,
        rel: Value::Num(0),
    };
    let Bound { name, kind, rel } = database.replace(at, hole);
    let held = Bound {
        name,
        kind,
        rel: relation,
    };
    let _ = database.replace(at, held);
    rel
}
