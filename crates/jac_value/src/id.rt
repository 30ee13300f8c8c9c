ghost use Rattle.std.specs.Prelude.{◌≡◌, ◌<◌, ◌^◌, true};
ghost use Rattle.jac_value.specs.Ids.{record_id, label_of, model_of_id, is_narrow, loop_id, is_wide, is_id_of};

use crate::{List, Memory, TryClone};
use std::alloc::Global;
use std::marker::Model;

/// The number of a record. Its remainder by 64 is the record's model. A narrow id is from 4096 to
/// 2^52 - 1, and its quotient by 4096 is the number of the request that made the record. A wide id,
/// of a record made in a loop, consists of two narrow ids: that of the loop's record times 2^52,
/// plus the id that the new record would have outside of the loop.
#[derive(Clone, Copy, Debug, PartialEq, Eq, PartialOrd, Ord)]
pub struct Id(pub u128);

impl Model for Id {
    ghost use Rattle.std.specs.Prelude.{ℕ};

    ghost Value = { ℕ };

    ghost view = { λ a. a.0 };

    ghost inverse = { λ n. record { 0 = n } };
}

/// Ids, in the order of their list.
pub type Ids = List<Id>;

impl TryClone for Id {
    fn try_clone(&self, _: Global) -> Result<Id, Memory> {
        Ok(*self)
    }
}

const FIRST_ID: u128 = 4096;

const IDS_END: u128 = 1 << 52;

/// The id of the record that the statement at place `site` of its view creates in request `number`.
pub fn id_of(number: u64, site: u8, model: u8) -> Id
    requires counted { 0 < number }
    requires in_range { number < 2 ^ 40 }
    requires a_site { site < 64 }
    requires a_model { model < 64 }
    ensures { result ≡ record_id number site model }
{
    Id((u128::from(number) * 64 + u128::from(site)) * 64 + u128::from(model))
}

/// The label that guards the given group of the record's fields.
pub fn label_number(id: Id, group: u8) -> u128
    requires a_group { group < 8 }
    requires in_range { id < 2 ^ 124 }
    ensures { result ≡ label_of id group }
{
    id.0 * 8 + u128::from(group)
}

/// The model of the record.
pub fn id_model(id: Id) -> u8
    ensures { result ≡ model_of_id id }
{
    (id.0 % 64) as u8
}

/// The id of a record that is made in a loop. `around` is the loop's record, and `base` the id that
/// the new record would have outside of the loop.
pub fn loop_id_of(around: Id, base: Id) -> Id
    requires narrow_around { is_narrow around ≡ true }
    requires narrow_base { is_narrow base ≡ true }
    ensures { result ≡ loop_id around base }
{
    Id(around.0 * IDS_END + base.0)
}

/// Whether the number is an id of the model: its remainder by 64 is the model, and it is narrow
/// (from 4096 to 2^52 - 1) or consists of two such numbers, the first times 2^52.
pub fn is_id(number: u128, model: u8) -> bool
    ensures { result ≡ is_id_of number model }
{
    (is_narrow(number) || is_wide(number)) && number % 64 == u128::from(model)
}

/// Whether the record was made outside of a loop.
pub fn is_narrow_id(id: Id) -> bool
    ensures { result ≡ is_narrow id }
{
    is_narrow(id.0)
}

fn is_narrow(number: u128) -> bool
    ensures { result ≡ is_narrow number }
{
    FIRST_ID <= number && number < IDS_END
}

fn is_wide(number: u128) -> bool
    ensures { result ≡ is_wide number }
{
    is_narrow(number / IDS_END) && is_narrow(number % IDS_END)
}
