//! The database of the newest record.
ghost use Rattle.std.specs.Prelude.{[], IfOk, IsTrue, map};
ghost use Rattle.dbpl_codec.specs.Reading.{Gives};
ghost use Rattle.dbpl_value.specs.Databases.{is_database};
ghost use Rattle.dbpl_store.specs.Stands.{newest as newest_of};

use dbpl_base::List;
use dbpl_codec::ReadErr;
use dbpl_database::read_database;
use dbpl_value::Bound;
use std::alloc::Global;

/// The database of the last of these records, where each of them spells one, and the empty one where there are none.
pub(crate) fn newest(alloc: Global, records: &[Vec<u8>]) -> Result<List<Bound>, ReadErr>
    ensures reads { Gives (λ database. database) result (newest_of [] (map (λ one. one.items) records.now)) }
    ensures sound { IfOk result (λ database. IsTrue (is_database database)) }
{
    let mut database = List::new(alloc);
    for bytes in records {
        database = read_database(alloc, bytes.as_slice())?;
    }
    Ok(database)
}
