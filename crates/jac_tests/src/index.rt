//! Records are found in an index by one of their values.
use jac_index::Index;
use jac_value::{Id, Txt, Value};
use std::test::Fail;

#[test]
fn an_index_finds_what_was_added(rt: HostRuntime) -> Result<(), Fail> {
    let alloc = rt.alloc();
    let mut index = Index::new(alloc);
    let value = Value::Text(Txt::from_str(alloc, "a")?);
    index.add(alloc, 0, &value, Id(8192))?;
    index.add(alloc, 0, &value, Id(4096))?;
    let both = [Id(4096), Id(8192)];
    assert_eq!(rt; index.find(alloc, 0, &value)?.as_slice(), both.as_slice());
    assert_eq!(rt; index.find(alloc, 1, &value)?.as_slice().len(), 0);
    index.remove(0, &value, Id(4096));
    assert_eq!(rt;
        index.find(alloc, 0, &value)?.as_slice(),
        [Id(8192)].as_slice()
    );
    Ok(())
}
