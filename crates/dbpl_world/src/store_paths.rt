// Where the files of a store are.
ghost use Rattle.std.specs.Prelude.{◌≡◌, IfOk, string_bytes};
ghost use Rattle.dbpl_world.specs.Paths.{log_path, pages_path};

use std::alloc::{AllocError, Global};

/// The paths of the two files of a store, and of the folder that they are in.
#[derive(Drop)]
pub struct StorePaths {
    pub log: String,
    pub pages: String,
    pub folder: String,
}

/// The paths of the store of that name.
pub fn store_paths(alloc: Global, name: &str) -> Result<StorePaths, AllocError>
    ensures log { IfOk result (λ paths. string_bytes paths.log ≡ log_path name.now) }
    ensures pages { IfOk result (λ paths. string_bytes paths.pages ≡ pages_path name.now) }
{
    let log = format!(in alloc; "{name}.log")?;
    let pages = format!(in alloc; "{name}.pages")?;
    let folder = folder_of(alloc, name)?;
    Ok(StorePaths { log, pages, folder })
}

/// The folder that a file of that name is in.
fn folder_of(alloc: Global, name: &str) -> Result<String, AllocError> {
    match name.rsplit_once('/') {
        Some((above, _)) => format!(in alloc; "{above}/"),
        None => format!(in alloc; "."),
    }
}
