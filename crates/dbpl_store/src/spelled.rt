//! What a commit writes, made before it.
ghost use Rattle.std.specs.Prelude.{IfOk};
ghost use Rattle.dbpl_store.specs.Kept.{IsSpelt};

use dbpl_base::Memory;
use dbpl_database::write_database;
use dbpl_value::Bound;
use std::alloc::Global;

/// The spelling of a database. One that a log can't hold is taken for want of memory.
pub(crate) fn spelled(alloc: Global, database: &[Bound]) -> Result<Vec<u8>, Memory>
    ensures { IfOk result (λ bytes. IsSpelt database.now bytes.items) }
{
    let bytes = write_database(alloc, database)?;
    if bytes.len() > u32::MAX as usize {
        return Err(Memory);
    }
    Ok(bytes)
}
