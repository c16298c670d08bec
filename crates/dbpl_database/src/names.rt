//! Names of relation variables, and their order.
ghost use Rattle.std.specs.Prelude.{◌≡◌, length};
ghost use Rattle.std.specs.List.{take_while};
ghost use Rattle.std.specs.Ordering.{is_lt};
ghost use Rattle.dbpl_value.specs.Databases.{is_joined_name as is_joined, is_kept_name as is_kept_name_of, is_no_stop, name_cmp, names_rise};

use dbpl_base::Name;
use dbpl_base::limits::RELATION_NAME_BYTES;
use dbpl_value::{Bound, is_identifier};

/// A module's name and a variable's, joined by a full stop, of no more bytes than they may take.
pub(crate) fn is_kept_name(name: &[u8]) -> bool
    ensures { result ≡ is_kept_name_of name.now }
{
    is_joined_name(name) && name.len() <= RELATION_NAME_BYTES
}

fn is_joined_name(name: &[u8]) -> bool
    ensures { result ≡ is_joined name.now }
{
    let stop = before_stop(name);
    if stop < name.len() {
        is_identifier(name.split_at(stop).0) && is_identifier(name.split_at(stop + 1).1)
    } else {
        false
    }
}

/// How many bytes stand before the first full stop.
fn before_stop(name: &[u8]) -> usize
    ensures { result ≡ length (take_while is_no_stop name.now) }
{
    name.iter().take_while(|byte| **byte != b'.').count()
}

/// Whether the first name is less than the second, by their bytes.
pub(crate) fn is_less(name: &Name, other: &Name) -> bool
    ensures { result ≡ is_lt (name_cmp name.now other.now) }
{
    name.as_bytes().cmp(other.as_bytes()).is_lt()
}

/// Whether each has a lesser name than all behind it, by one comparison of each with the one before.
pub(crate) fn rise(database: &[Bound]) -> bool
    ensures { result ≡ names_rise database.now }
{
    for i in 1..database.len() {
        if !is_less(&database[i - 1].name, &database[i].name) {
            return false;
        }
    }
    true
}
