ghost use Rattle.std.specs.Prelude.{◌≡◌, IsTrue};
ghost use Rattle.std.specs.Option.{option_map};
ghost use Rattle.dbpl_value.specs.Databases.{is_database};
ghost use Rattle.dbpl_store.specs.Kept.{IsKept};

use dbpl_base::List;
use dbpl_log::Log;
use dbpl_value::Bound;

/// An open store with its database in memory. After a call of it that failed on the disk, open the store again.
#[derive(Debug, Drop)]
pub struct Store {
    pub(crate) log: Log,
    /// The spelling of the database of the last commit.
    pub(crate) stored: Vec<u8>,
    /// The database, with what the running transaction changed.
    pub(crate) database: List<Bound>,
    /// The spelling of the database, where it may be another than the stored one.
    pub(crate) changed: Option<Vec<u8>>,
    /// Where the relation variable stands that the program is bound to.
    pub(crate) bound: Option<usize>,
    pub(crate) running: bool,

    ghost sound: { IsTrue (is_database database) },
    ghost kept: { IsKept stored.items database (option_map (λ bytes. bytes.items) changed) },
}
