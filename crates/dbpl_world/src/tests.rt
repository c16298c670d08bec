// The calls in an order of use, with values from the description of the world.
ghost use Rattle.std.specs.Prelude.{◌≡◌, IsSome};

use super::*;
use std::alloc::{AllocError, Global};
use std::fs;
use std::test::Fail;

#[test]
fn input_and_output_in_memory(rt: HostRuntime) -> Result<(), Fail> {
    let mut world = MemoryWorld::make(rt.alloc(), b"abc", &[2], 10_000).expect(&rt, "memory");
    let mut room = [0; 2];
    assert_eq!(rt; (world.take(&mut room), room), (Ok(2), [b'a', b'b']));
    assert_eq!(rt; say_all(&mut world, b"yes"), Err(Failed));
    assert_eq!(rt; note_all(&mut world, b"note"), Ok(()));
    assert_eq!(rt;
        (world.said(), world.noted()),
        (b"y".as_slice(), b"note".as_slice())
    );
    assert_eq!(rt; world.calls(), 4);
    Ok(())
}

#[test]
fn room_in_memory(rt: HostRuntime) -> Result<(), Fail> {
    let mut world = MemoryWorld::make(rt.alloc(), b"", &[], 64 + 3 + 64).expect(&rt, "memory");
    let said = (world.say(b"yes"), world.say(b"!"), world.take(&mut []));
    assert_eq!(rt; said, (Ok(3), Err(Failed), Err(Failed)));
    Ok(())
}

// Writes behind a gap, syncs and reads back.
fn round_trip<W: World>(world: &mut W, part: Part) -> Result<(u64, usize, [u8; 6]), Failed>
    requires { IsSome (W.mounted world.old) }
    ensures { W.mounted world.new ≡ W.mounted world.old }
{
    write_and_sync(world, part, 2, b"xyz")?;
    let size = world.size(part)?;
    let mut read = [9; 6];
    let count = world.read_at(part, 0, &mut read)?;
    Ok((size, count, read))
}

#[test]
fn store_in_memory(rt: HostRuntime) -> Result<(), Fail> {
    let alloc = rt.alloc();
    let mut world = MemoryWorld::make(alloc, b"", &[], 10_000).expect(&rt, "memory");
    assert_eq!(rt; world.put_store(alloc, "s", b"1", b""), Ok(()));
    assert!(rt; world.mount(alloc, "s").is_ok());
    assert_eq!(rt;
        round_trip(&mut world, Part::Log),
        Ok((5, 5, [b'1', 0, b'x', b'y', b'z', 9]))
    );
    Ok(())
}

#[test]
fn store_in_files(rt: HostRuntime) -> Result<(), Fail> {
    fs::create_dir(&rt, "stores")?;
    let mut world = RealWorld::new(rt, rt.stdin(), rt.stdout(), rt.stderr());
    assert!(rt; world.mount(rt.alloc(), "stores/s").is_ok());
    assert_eq!(rt; world.size(Part::Pages), Ok(0));
    assert!(rt; !fs::exists(&rt, "stores/s.log")?);
    let trip = Ok((5, 5, [0, 0, b'x', b'y', b'z', 9]));
    assert_eq!(rt; round_trip(&mut world, Part::Log), trip);
    assert_eq!(rt; round_trip(&mut world, Part::Pages), trip);
    assert_eq!(rt;
        fs::read(&rt, "stores/s.log")?.as_slice(),
        b"\0\0xyz".as_slice()
    );
    assert_eq!(rt;
        fs::read(&rt, "stores/s.pages")?.as_slice(),
        b"\0\0xyz".as_slice()
    );
    Ok(())
}

#[test]
fn store_in_use(rt: HostRuntime) -> Result<(), Fail> {
    fs::create_dir(&rt, "held")?;
    let mut first = RealWorld::new(rt, rt.stdin(), rt.stdout(), rt.stderr());
    assert!(rt; first.mount(rt.alloc(), "held/s").is_ok());
    assert!(rt; round_trip(&mut first, Part::Log).is_ok());
    let mut second = RealWorld::new(rt, rt.stdin(), rt.stdout(), rt.stderr());
    assert_eq!(rt; second.mount(rt.alloc(), "held/s"), Err(MountErr::Failed));
    Ok(())
}

#[test]
fn real_input_and_output(rt: HostRuntime) -> Result<(), Fail> {
    let mut said = Vec::new(rt.alloc());
    let mut world = RealWorld::new(rt, b"abc".as_slice(), &mut said, rt.stderr());
    assert_eq!(rt; say_all(&mut world, &[b'p'; 8193]), Ok(()));
    let mut room = [0; 2];
    assert_eq!(rt; (world.take(&mut room), room), (Ok(2), [b'a', b'b']));
    assert_eq!(rt; say_all(&mut world, b"yes"), Ok(()));
    assert_eq!(rt; world.flush(), Ok(()));
    drop(world);
    assert_eq!(rt; said.len(), 8196);
    assert!(rt; said.as_slice().ends_with(b"pppyes"));
    Ok(())
}

#[test]
fn shelf_in_memory(rt: HostRuntime) -> Result<(), Fail> {
    let alloc = rt.alloc();
    let mut files = Vec::new(alloc);
    files.push((b"a".to_vec(alloc)?, b"one".to_vec(alloc)?))?;
    files.push((b"a".to_vec(alloc)?, b"two".to_vec(alloc)?))?;
    let mut shelf = MemoryShelf::make(alloc, files.as_slice(), &[1]).expect(&rt, "memory");
    let mut into = Vec::new(alloc);
    assert_eq!(rt; shelf.fetch(alloc, "a", 3, &mut into), Ok(true));
    assert_eq!(rt;
        shelf.fetch(alloc, "a", 3, &mut into),
        Err(ShelfErr::Failed)
    );
    assert_eq!(rt; into.as_slice(), b"one".as_slice());
    Ok(())
}

#[test]
fn shelf_of_files(rt: HostRuntime) -> Result<(), Fail> {
    fs::create_dir(&rt, "shelf")?;
    fs::write(&rt, "shelf/a.mod", "text")?;
    let mut shelf = FileShelf::new(rt);
    let mut into = Vec::new(rt.alloc());
    for (name, limit, want) in [
        ("shelf/a.mod", 4, Ok(true)),
        ("shelf/b.mod", 4, Ok(false)),
        ("shelf/a.mod", 3, Err(ShelfErr::TooLong)),
        ("shelf", 4, Err(ShelfErr::Failed)),
    ] {
        assert_eq!(rt; shelf.fetch(rt.alloc(), name, limit, &mut into), want);
    }
    assert_eq!(rt; into.as_slice(), b"text".as_slice());
    Ok(())
}

/// The path behind a thousand steps that stay in the folder.
fn long_path(alloc: Global, path: &str) -> Result<String, AllocError> {
    let mut long = String::new(alloc);
    for _step in 0..1000 {
        long.push_str("./")?;
    }
    long.push_str(path)?;
    Ok(long)
}

#[test]
fn long_names_and_a_long_text(rt: HostRuntime) -> Result<(), Fail> {
    let alloc = rt.alloc();
    fs::create_dir(&rt, "long")?;
    let text = vec![in alloc; b't'; 6000]?;
    fs::write(&rt, "long/a.mod", text.as_slice())?;
    let file = long_path(alloc, "long/a.mod")?;
    let mut shelf = FileShelf::new(rt);
    let mut into = Vec::new(alloc);
    assert_eq!(rt;
        shelf.fetch(alloc, file.as_str(), 6000, &mut into),
        Ok(true)
    );
    assert!(rt; into.as_slice() == text.as_slice());
    let store = long_path(alloc, "long/s")?;
    let mut world = RealWorld::new(rt, rt.stdin(), rt.stdout(), rt.stderr());
    assert!(rt; world.mount(alloc, store.as_str()).is_ok());
    let trip = Ok((5, 5, [0, 0, b'x', b'y', b'z', 9]));
    assert_eq!(rt; round_trip(&mut world, Part::Log), trip);
    Ok(())
}
