//! The types of fields, by their names.
ghost use Rattle.std.specs.Prelude.{◌≡◌};
ghost use Rattle.dbpl_value.specs.Types.{key_type as key_type_of, type_named as type_of_name};

use crate::levels::{element_of, fields_of};
use crate::{DbType, Field};
use dbpl_base::Name;

/// The type of the key field of this name in a relation of type `t`.
pub fn key_type<'a>(t: &'a DbType, name: &Name) -> &'a DbType
    ensures { result.now ≡ key_type_of t.now name.now }
{
    type_named(t, fields_of(element_of(t)), name)
}

/// The type of the field of this name, and `t` where there is none.
pub fn type_named<'a>(t: &'a DbType, fields: &'a [Field], name: &Name) -> &'a DbType
    ensures { result.now ≡ type_of_name t.now fields.now name.now }
{
    for field in fields {
        if field.name == *name {
            return &field.kind;
        }
    }
    t
}
