// With ample memory each call that takes memory has its answer.
use crate::{Boxed, List, Shared, name_of};
use std::test::Fail;

#[test]
fn memory_is_taken(rt: HostRuntime) -> Result<(), Fail> {
    let alloc = rt.alloc();
    let mut list = List::from_slice(alloc, &[1u8, 3])?;
    list.insert(1, 2)?;
    list.push(4)?;
    assert_eq!(rt; list.as_slice(), [1, 2, 3, 4].as_slice());
    let mut roomy = List::with_capacity(alloc, 5_000)?;
    for item in 0..6_000u32 {
        roomy.push(item)?;
    }
    assert_eq!(rt; roomy.get(5_999), Some(&5_999));
    let name = name_of(alloc, b"name")?;
    assert_eq!(rt; name.copy(alloc)?.as_bytes(), b"name".as_slice());
    assert_eq!(rt; *Boxed::new(alloc, 5u8)?.get(), 5);
    let owner = Shared::new(alloc, name)?;
    let other = owner.share()?;
    drop(owner);
    assert_eq!(rt; other.get().as_bytes(), b"name".as_slice());
    Ok(())
}
