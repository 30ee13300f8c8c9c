//! A sink that is aimed at a file, and a door with one link, in memory.
use jac_io::{
    AuditSink, Calls, Door, Link, Links, MemoryDoor, MemoryLink, MemorySink, Pieces, Sink,
};
use jac_value::{Bytes, Memory, Txt};
use std::alloc::Global;
use std::test::Fail;

#[test]
fn aims_are_listed(rt: HostRuntime) -> Result<(), Fail> {
    let alloc = rt.alloc();
    let mut sink = MemorySink::new(alloc, 9, Calls::empty(alloc))?;
    assert_eq!(rt; sink.put(b"abc"), Ok(()));
    assert_eq!(rt; sink.aim(Some(Txt::from_str(alloc, "audit")?)), Ok(()));
    assert_eq!(rt; sink.aims().len(), 1);
    assert_eq!(rt; sink.aims()[0].1, 3);
    assert_eq!(rt; sink.taken(), b"abc".as_slice());
    Ok(())
}

fn one_link(alloc: Global) -> Result<Links, Memory> {
    let mut pieces = Vec::new(alloc);
    pieces.push(Bytes::from_slice(alloc, b"in")?)?;
    let link = MemoryLink::new(alloc, Pieces::from_vec(pieces), 9, Calls::empty(alloc))?;
    let mut links = Vec::new(alloc);
    links.push(link)?;
    Ok(Links::from_vec(links))
}

#[test]
fn a_link_comes_and_is_handed_back(rt: HostRuntime) -> Result<(), Fail> {
    let alloc = rt.alloc();
    let mut door = MemoryDoor::new(alloc, one_link(alloc)?, Calls::empty(alloc))?;
    assert_eq!(rt; door.listen(8080), Ok(()));
    let Ok(Some(mut line)) = door.next() else {
        return Err(Fail::from("no link"));
    };
    let mut into = [0; 4];
    assert_eq!(rt; line.take(&mut into), Ok(2));
    assert_eq!(rt; into, [b'i', b'n', 0, 0]);
    assert_eq!(rt; line.put(b"out"), Ok(()));
    assert_eq!(rt; door.close(line), Ok(()));
    assert_eq!(rt; door.lines().len(), 1);
    assert_eq!(rt; door.lines()[0].taken(), b"out".as_slice());
    Ok(())
}
