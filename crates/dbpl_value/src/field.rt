ghost use Rattle.std.specs.Prelude.{◌≡◌};

use crate::DbType;
use dbpl_base::Name;

/// A field of a record: its name and its type.
#[cycle(kinds)]
#[derive(Debug, Drop)]
pub struct Field {
    pub name: Name,
    pub kind: DbType,
}

/// A field of this name and type.
pub fn field_of(name: Name, kind: DbType) -> Field
    ensures name { result.name ≡ name }
    ensures kind { result.kind ≡ kind }
{
    Field { name, kind }
}
