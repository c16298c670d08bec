//! With ample memory each call that takes memory has its answer. Many more rows stand in the input of `dbpl_rows`.
use crate::{DbType, copy, copy_type, equal, same_type, size_of, start_value};
use dbpl_base::{Boxed, Memory};

#[test]
fn memory_is_taken(rt: HostRuntime) -> Result<(), Memory> {
    let alloc = rt.alloc();
    let index = Boxed::new(alloc, DbType::Bool)?;
    let t = DbType::Arr(index, Boxed::new(alloc, DbType::Card)?);
    assert!(rt; same_type(&t, &copy_type(alloc, &t)?));
    let v = start_value(alloc, &t)?;
    assert!(rt; size_of(&t, &v) == 8);
    assert!(rt; equal(&v, &copy(alloc, &v)?));
    Ok(())
}
