//! How many nodes a type has: one for each type and each name in it.
ghost use Rattle.std.specs.Prelude.{◌≡◌, ◌+◌, ◌<◌, length, sum_by, IfSome, None};
ghost use Rattle.dbpl_judging.specs.Nodes.{nodes_of};

use dbpl_base::Name;
use dbpl_value::{DbType, Field};

/// How many of so many nodes are left where those of the type are taken, or nothing where it has more.
#[tactic(auto, using(crate::proofs::NodeLaws::nodes_of_rec))]
#[cycle(nodes)]
pub fn room_behind(room: u32, t: &DbType) -> Option<u32>
    ensures some { IfSome result (λ left. left + nodes_of t.now ≡ room) }
    ensures none { result ≡ None → room < nodes_of t.now }
{
    let room = room.checked_sub(1)?;
    match t {
        DbType::Int | DbType::Card | DbType::Bool | DbType::Char => Some(room),
        DbType::Enum(names) => room_behind_names(room, names.as_slice()),
        DbType::Sub(host, _, _) => room_behind(room, host.get()),
        DbType::Arr(index, element) => room_behind(room_behind(room, index.get())?, element.get()),
        DbType::Rec(fields) => room_behind_fields(room, fields.as_slice()),
        DbType::Rel(keys, record) => {
            room_behind(room_behind_names(room, keys.as_slice())?, record.get())
        }
    }
}

#[cycle(nodes)]
fn room_behind_fields(room: u32, fields: &[Field]) -> Option<u32>
    ensures some { IfSome result (λ left. left + sum_by (λ field. nodes_of field.kind + 1) fields.now ≡ room) }
    ensures none { result ≡ None → room < sum_by (λ field. nodes_of field.kind + 1) fields.now }
{
    let mut room = room;
    for field in fields {
        room = room_behind(room.checked_sub(1)?, &field.kind)?;
    }
    Some(room)
}

fn room_behind_names(room: u32, names: &[Name]) -> Option<u32>
    ensures some { IfSome result (λ left. left + length names.now ≡ room) }
    ensures none { result ≡ None → room < length names.now }
{
    let count = u32::try_from(names.len()).ok()?;
    room.checked_sub(count)
}
