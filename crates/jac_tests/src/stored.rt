//! A row and its bytes, worked out by hand.
use jac_row_codec::{RowFault, decode_id, decode_row, encode_id, encode_row};
use jac_rows::Row;
use jac_value::{Cells, Id, Kind, Memory, Txt, Value, loop_id_of};
use jac_world::{Guard, Label};
use std::alloc::Global;
use std::test::Fail;

const KINDS: [Kind; 3] = [Kind::Text, Kind::Ref(0), Kind::Bool];

// The label 98312 in 16 bytes, and its sign: it is shown.
const JVARS: [u8; 17] = [0, 0, 0, 0, 0, 0, 0, 0, 0, 0, 0, 0, 0, 1, 0x80, 8, 1];

// A text of 4 bytes, the id 4096, and false.
const BODY: [u8; 33] = [
    2, 0, 0, 0, 0, 0, 0, 0, 4, b'r', b'a', b'i', b'd', 4, 1, 0, 0, 0, 0, 0, 0, 0, 0, 0, 0, 0, 0, 0,
    0, 0x10, 0, 3, 0,
];

fn raid(alloc: Global) -> Result<Row, Memory> {
    let Ok(guard) = Guard::one(alloc, Label(98312), true) else {
        return Err(Memory);
    };
    let title = Txt::from_str(alloc, "raid")?;
    let mut cells = Vec::new(alloc);
    cells.push(Value::Text(title))?;
    cells.push(Value::Ref(Some(Id(4096))))?;
    cells.push(Value::Bool(false))?;
    Ok(Row {
        id: Id(12289),
        guard,
        cells: Cells::from_vec(cells),
    })
}

#[test]
fn a_row_is_spelled(rt: HostRuntime) -> Result<(), Fail> {
    let stored = encode_row(rt.alloc(), &raid(rt.alloc())?)?;
    assert_eq!(rt; stored.jvars.as_slice(), JVARS.as_slice());
    assert_eq!(rt; stored.body.as_slice(), BODY.as_slice());
    Ok(())
}

#[test]
fn its_bytes_are_read(rt: HostRuntime) -> Result<(), Fail> {
    let alloc = rt.alloc();
    let row = decode_row(alloc, Id(12289), &KINDS, &JVARS, &BODY).ok();
    let raid = raid(alloc)?;
    assert!(rt; row.is_some_and(|row| row.cells.as_slice() == raid.cells.as_slice()));
    Ok(())
}

#[test]
fn an_id_is_one_of_its_model(rt: HostRuntime) -> Result<(), Fail> {
    let bytes = encode_id(Id(12289));
    assert_eq!(rt; bytes, [0, 0, 0, 0, 0, 0, 0, 0, 0, 0, 0, 0, 0, 0, 0x30, 1]);
    assert_eq!(rt; decode_id(bytes.as_slice(), 1), Some(Id(12289)));
    Ok(())
}

// The id 12289 of the second model, around the record 4096: 4096 * 2^52 is 2^64.
const AROUND: [u8; 16] = [0, 0, 0, 0, 0, 0, 0, 1, 0, 0, 0, 0, 0, 0, 0x30, 1];

#[test]
fn an_id_is_made_around_another(rt: HostRuntime) -> Result<(), Fail> {
    let id = loop_id_of(Id(4096), Id(12289));
    assert_eq!(rt; id, Id(18446744073709563905));
    assert_eq!(rt; encode_id(id), AROUND);
    assert_eq!(rt; decode_id(&AROUND, 1), Some(id));
    assert_eq!(rt; decode_id(&AROUND, 0), None);
    Ok(())
}

// A reference to it, and three in which byte 2, 8 or 9 of the id makes it invalid. In the first of
// the three, the record around which it was made is too great. In the others, the id is around no
// record, and it is too great.
const REFERENCE: [u8; 18] = [4, 1, 0, 0, 0, 0, 0, 0, 0, 1, 0, 0, 0, 0, 0, 0, 0x30, 1];

const AT_2: [u8; 18] = [4, 1, 0, 0, 1, 0, 0, 0, 0, 1, 0, 0, 0, 0, 0, 0, 0x30, 1];

const AT_8: [u8; 18] = [4, 1, 0, 0, 0, 0, 0, 0, 0, 0, 1, 0, 0, 0, 0, 0, 0x30, 1];

const AT_9: [u8; 18] = [4, 1, 0, 0, 0, 0, 0, 0, 0, 0, 0, 0x10, 0, 0, 0, 0, 0x30, 1];

fn fault(alloc: Global, body: &[u8]) -> Option<RowFault> {
    decode_row(alloc, Id(12289), &[Kind::Ref(1)], &[], body).err()
}

#[test]
fn bytes_of_no_id_are_told(rt: HostRuntime) {
    let alloc = rt.alloc();
    assert_eq!(rt; fault(alloc, &REFERENCE), None);
    assert_eq!(rt; fault(alloc, &AT_2), Some(RowFault::Body(4)));
    assert_eq!(rt; fault(alloc, &AT_8), Some(RowFault::Body(10)));
    assert_eq!(rt; fault(alloc, &AT_9), Some(RowFault::Body(11)));
}
