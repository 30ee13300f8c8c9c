ghost use Rattle.std.specs.Prelude.{◌≡◌, ◌<◌, ◌^◌, ◌++◌, ◌∷◌, true, List, IfOk, OnOk, []};
ghost use Rattle.std.specs.Int.{w128, to_be_bytes};
ghost use Rattle.std.specs.List.{AllByRecursion};
ghost use Rattle.jac_value.specs.declared.value.Kind.{Kind};
ghost use Rattle.jac_rows.specs.Good.{have_kinds};
ghost use Rattle.jac_row_codec.specs.Spelling.{guard_bytes, cell_bytes, cells_bytes, sign_byte, IsLabel, IsCell, IsNarrow};
ghost use Rattle.jac_row_codec.specs.Faults.{IsRowOf, CanBeSpelled};

use crate::id::encode_id;
use jac_rows::Row;
use jac_value::{Bytes, Id, Memory, Value};
use jac_world::Label;
use std::alloc::Global;

/// The two columns of a row that aren't plain numbers.
#[derive(Drop)]
pub struct Stored {
    /// For each label of the guard, in rising order: its number in 16 bytes, the most significant
    /// first, and a byte 1 (shown) or 0 (hidden).
    pub jvars: Bytes,
    /// The cells in order, each after a tag. Tag 1: an integer in 8 bytes. Tag 2: the length of a
    /// text in 8 bytes, and the text. Tag 3: a truth value in a byte. Tag 4: 0 for no reference, or
    /// 1 and an id in 16 bytes.
    pub body: Bytes,
}

/// `decode_row` makes the same row of these bytes.
pub fn encode_row(alloc: Global, row: &Row) -> Result<Stored, Memory>
    ensures jvars { IfOk result (λ s. s.jvars ≡ guard_bytes row.now.guard) }
    ensures body { IfOk result (λ s. s.body ≡ cells_bytes row.now.cells) }
    ensures right { IfOk result (λ s. (kinds : List Kind) → have_kinds kinds row.now.cells ≡ true
        → IsRowOf row.now.id kinds s.jvars s.body row.now) }
    ensures spelled { OnOk result (CanBeSpelled row.now) }
{
    let jvars = encode_guard(alloc, row.guard.pairs())?;
    let body = encode_cells(alloc, row.cells.as_slice())?;
    Ok(Stored { jvars, body })
}

fn encode_guard(alloc: Global, pairs: &[(Label, bool)]) -> Result<Bytes, Memory>
    ensures bytes { IfOk result (λ b. b ≡ guard_bytes pairs.now) }
    ensures labels { OnOk result (AllByRecursion IsLabel pairs.now) }
{
    let mut bytes = Vec::new(alloc);
    let mut rest = pairs;
    'pairs: while let Some((pair, more)) = rest.split_first() {
        push_pair(&mut bytes, pair.0, pair.1)?;
        rest = more;
    }
    Ok(Bytes::from_vec(bytes))
}

fn push_pair(bytes: &mut Vec<u8>, label: Label, sign: bool) -> Result<(), Memory>
    ensures bytes { OnOk result (bytes.new.items ≡ bytes.old.items ++ (to_be_bytes w128 label
        ++ (sign_byte sign ∷ []))) }
    ensures label { label < 2 ^ 128 }
{
    bytes.extend_from_slice(&encode_label(label))?;
    bytes.push(sign_byte(sign))?;
    Ok(())
}

fn encode_label(label: Label) -> [u8; 16]
    ensures bytes { result ≡ to_be_bytes w128 label }
    ensures label { label < 2 ^ 128 }
{
    label.0.to_be_bytes()
}

fn sign_byte(sign: bool) -> u8
    ensures { result ≡ sign_byte sign }
{
    if sign { 1 } else { 0 }
}

fn encode_cells(alloc: Global, cells: &[Value]) -> Result<Bytes, Memory>
    ensures bytes { IfOk result (λ b. b ≡ cells_bytes cells.now) }
    ensures cells { OnOk result (AllByRecursion IsCell cells.now) }
    ensures narrow { OnOk result (AllByRecursion IsNarrow cells.now) }
{
    let mut bytes = Vec::new(alloc);
    let mut rest = cells;
    'cells: while let Some((cell, more)) = rest.split_first() {
        push_cell(&mut bytes, cell)?;
        rest = more;
    }
    Ok(Bytes::from_vec(bytes))
}

fn push_cell(bytes: &mut Vec<u8>, cell: &Value) -> Result<(), Memory>
    ensures bytes { OnOk result (bytes.new.items ≡ bytes.old.items ++ cell_bytes cell.now) }
    ensures cell { OnOk result (IsCell cell.now) }
    ensures narrow { OnOk result (IsNarrow cell.now) }
{
    match cell {
        Value::Int(number) => {
            bytes.push(1)?;
            bytes.extend_from_slice(&number.to_be_bytes())?;
        }
        Value::Text(text) => {
            let text = text.as_str().as_bytes();
            bytes.push(2)?;
            bytes.extend_from_slice(&(text.len() as u64).to_be_bytes())?;
            bytes.extend_from_slice(text)?;
        }
        Value::Bool(truth) => {
            bytes.extend_from_slice(&[3, sign_byte(*truth)])?;
        }
        Value::Ref(None) => {
            bytes.extend_from_slice(&[4, 0])?;
        }
        Value::Ref(Some(id)) => {
            push_id(bytes, *id)?;
        }
    }
    Ok(())
}

fn push_id(bytes: &mut Vec<u8>, id: Id) -> Result<(), Memory>
    ensures bytes { OnOk result (bytes.new.items ≡ bytes.old.items
        ++ (4 ∷ (1 ∷ to_be_bytes w128 id))) }
    ensures narrow { id < 2 ^ 128 }
{
    bytes.extend_from_slice(&[4, 1])?;
    bytes.extend_from_slice(&encode_id(id))?;
    Ok(())
}
