ghost use Rattle.std.specs.Prelude.{◌≡◌, ◌<◌, ◌≤◌, ◌^◌, ◌∷◌, ◌++◌, ℕ, IfOk, IfErr};
ghost use Rattle.jac_value.specs.declared.value.Kind.TheVariants as kinds;
ghost use Rattle.jac_row_codec.specs.Reading.{StopsBy, IsStopOfBytes, CellsOf, IsCellOf, BodiesOf, IsBodyOf, tag_of, Signs, IdsOf, LastsOf, IsIdIn, IsLastByte, sign_bytes, most_sign, most_middle, least_next};

use crate::number::number;
use crate::stop::Stop;
use crate::text::text_of;
use jac_value::{Id, Kind, Value};
use std::alloc::Global;

// The greatest number of 64 bits.
const LONGS: u128 = 0xFFFF_FFFF_FFFF_FFFF;

// The cell of this kind at the beginning, and the bytes after it.
#[tactic(auto, using(crate::proofs::Cells::tag_stops, crate::proofs::Cells::body_stops, crate::proofs::Cells::cell_read))]
pub(crate) fn cell(alloc: Global, kind: Kind, bytes: &[u8]) -> Result<(Value, &[u8]), Stop>
    ensures cell { IfOk result (λ r. IsCellOf kind bytes.now r.0 r.1.now) }
    ensures stops { IfErr result (StopsBy (CellsOf kind) bytes.now) }
{
    let tag = tag_of(kind);
    let (_, rest) = number(bytes, 1, tag, tag)?;
    let (value, rest) = body(alloc, kind, rest)?;
    Ok((value, rest))
}

fn tag_of(kind: Kind) -> u128
    ensures { result ≡ tag_of kind }
{
    match kind {
        Kind::Int => 1,
        Kind::Text => 2,
        Kind::Bool => 3,
        Kind::Ref(_) => 4,
    }
}

// The cell's value after its tag, and the bytes after it.
fn body(alloc: Global, kind: Kind, bytes: &[u8]) -> Result<(Value, &[u8]), Stop>
    ensures cell { IfOk result (λ r. IsBodyOf kind bytes.now r.0 r.1.now) }
    ensures stops { IfErr result (StopsBy (BodiesOf kind) bytes.now) }
{
    match kind {
        Kind::Int => int(bytes),
        Kind::Text => text(alloc, bytes),
        Kind::Bool => truth(bytes),
        Kind::Ref(model) => reference(bytes, model),
    }
}

#[tactic(auto, using(crate::proofs::Cells::int_stops, crate::proofs::Cells::int_read))]
fn int(bytes: &[u8]) -> Result<(Value, &[u8]), Stop>
    ensures cell { IfOk result (λ r. IsBodyOf kinds.Int bytes.now r.0 r.1.now) }
    ensures stops { IfErr result (StopsBy (BodiesOf kinds.Int) bytes.now) }
{
    let (bits, rest) = number(bytes, 8, 0, LONGS)?;
    Ok((Value::Int((bits as u64).cast_signed()), rest))
}

#[tactic(auto, using(crate::proofs::Cells::truth_stops, crate::proofs::Cells::truth_read))]
fn truth(bytes: &[u8]) -> Result<(Value, &[u8]), Stop>
    ensures cell { IfOk result (λ r. IsBodyOf kinds.Bool bytes.now r.0 r.1.now) }
    ensures stops { IfErr result (StopsBy (BodiesOf kinds.Bool) bytes.now) }
{
    let (sign, rest) = sign(bytes)?;
    Ok((Value::Bool(sign), rest))
}

// The byte of a truth value.
#[tactic(auto, using(crate::proofs::Cells::sign_stops, crate::proofs::Cells::sign_read))]
pub(crate) fn sign(bytes: &[u8]) -> Result<(bool, &[u8]), Stop>
    ensures sign { IfOk result (λ r. bytes.now ≡ sign_bytes r.0 ++ r.1.now) }
    ensures stops { IfErr result (StopsBy Signs bytes.now) }
{
    let (bit, rest) = number(bytes, 1, 0, 1)?;
    Ok((bit == 1, rest))
}

#[tactic(auto, using(crate::proofs::Cells::ref_stops, crate::proofs::Cells::has_ids, crate::proofs::Cells::ids_stop, crate::proofs::Cells::none_read, crate::proofs::Cells::some_read))]
fn reference(bytes: &[u8], model: u8) -> Result<(Value, &[u8]), Stop>
    ensures cell { IfOk result (λ r. IsBodyOf (kinds.Ref model) bytes.now r.0 r.1.now) }
    ensures stops { IfErr result (StopsBy (BodiesOf (kinds.Ref model)) bytes.now) }
{
    let (some, rest) = number(bytes, 1, 0, most_sign(model))?;
    if some == 0 {
        return Ok((Value::Ref(None), rest));
    }
    let (id, rest) = id(rest, model)?;
    Ok((Value::Ref(Some(Id(id))), rest))
}

// The greatest byte before a reference. No model from 64 on has ids.
fn most_sign(model: u8) -> u128
    ensures { result ≡ most_sign model }
{
    if model < 64 { 1 } else { 0 }
}

// An id of the model. If its first eight bytes are 0, it is narrow, and the number after them is
// less than 2^52. If not, it is wide and may have any bytes next. If the id or its second part fits
// into two bytes, the first of them is at least 16.
#[tactic(auto, using(crate::proofs::Ids::top_stops))]
pub(crate) fn id(bytes: &[u8], model: u8) -> Result<(u128, &[u8]), Stop>
    requires { model < 64 }
    ensures id { IfOk result (λ r. IsIdIn model bytes.now r.0 r.1.now) }
    ensures stops { IfErr result (StopsBy (IdsOf model) bytes.now) }
    ensures of_bytes { IfErr result IsStopOfBytes }
{
    let (top, rest) = number(bytes, 8, 0, 0xFF_FFFF_FFFF)?;
    let (middle, rest) = number(rest, 6, 0, most_middle(top))?;
    let front = top * 0x1_0000_0000_0000 + middle;
    let (next, rest) = number(rest, 1, least_next(front), 255)?;
    let (low, rest) = last_byte(rest, model)?;
    Ok(((front * 256 + next) * 256 + u128::from(low), rest))
}

fn most_middle(top: u128) -> u128
    ensures most { result ≡ most_middle top }
    ensures small { result < 256 ^ 6 }
{
    if top == 0 {
        0xF_FFFF_FFFF
    } else {
        0xFFFF_FFFF_FFFF
    }
}

fn least_next(front: u128) -> u128
    ensures least { result ≡ least_next front }
    ensures small { result ≤ 255 }
{
    if front % 0x10_0000_0000 == 0 { 16 } else { 0 }
}

// The last byte of an id of the model.
#[tactic(auto, using(crate::proofs::Cells::last_short, crate::proofs::Cells::last_out))]
fn last_byte(bytes: &[u8], model: u8) -> Result<(u8, &[u8]), Stop>
    requires { model < 64 }
    ensures byte { IfOk result (λ r. IsLastByte model r.0 × (bytes.now ≡ r.0 ∷ r.1.now)) }
    ensures stops { IfErr result (StopsBy (LastsOf model) bytes.now) }
    ensures of_bytes { IfErr result IsStopOfBytes }
{
    match bytes.split_first() {
        None => Err(Stop::Left(0)),
        Some((byte, rest)) if *byte % 64 == model => Ok((*byte, rest)),
        Some(_) => Err(Stop::Left(bytes.len())),
    }
}

// The length of a text, and the text.
#[tactic(auto, using(crate::proofs::Cells::long_stops, crate::proofs::Cells::text_stops, crate::proofs::Cells::text_read))]
fn text(alloc: Global, bytes: &[u8]) -> Result<(Value, &[u8]), Stop>
    ensures cell { IfOk result (λ r. IsBodyOf kinds.Text bytes.now r.0 r.1.now) }
    ensures stops { IfErr result (StopsBy (BodiesOf kinds.Text) bytes.now) }
{
    let (long, rest) = number(bytes, 8, 0, LONGS)?;
    let (text, rest) = text_of(alloc, long as u64, rest)?;
    Ok((Value::Text(text), rest))
}
