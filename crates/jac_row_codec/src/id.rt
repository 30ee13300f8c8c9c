ghost use Rattle.std.specs.Prelude.{◌≡◌, ℕ, IsNone, IfSome};
ghost use Rattle.std.specs.Int.{w128, to_be_bytes};
ghost use Rattle.jac_row_codec.specs.Faults.{IsIdOf};

use crate::cell;
use jac_value::Id;

/// The most significant byte comes first, so the bytes have the order of the ids.
pub fn encode_id(id: Id) -> [u8; 16]
    ensures { result ≡ to_be_bytes w128 id }
{
    id.0.to_be_bytes()
}

/// None if the bytes aren't the 16 bytes of an id of the model.
#[tactic(auto, using(crate::proofs::Ids::read_alone, crate::proofs::Ids::not_alone, crate::proofs::Ids::never_id))]
pub fn decode_id(bytes: &[u8], model: u8) -> Option<Id>
    ensures id { IfSome result (IsIdOf bytes.now model) }
    ensures none { IsNone result → (id : ℕ) → ¬ (IsIdOf bytes.now model id) }
{
    // No model from 64 on has ids.
    if model >= 64 {
        return None;
    }
    match cell::id(bytes, model) {
        Ok((number, rest)) if rest.is_empty() => Some(Id(number)),
        Ok(_) => None,
        Err(_) => None,
    }
}
