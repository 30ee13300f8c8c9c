//! The fields that a write names.
ghost use Rattle.std.specs.Prelude.{◌≡◌, ◌<◌, ℕ, Bool, length};
ghost use Rattle.jac_lang.specs.Lookup.{fields_at};
ghost use Rattle.jac_lang.specs.Mirror.{application_of};
ghost use Rattle.jac_write.specs.Drafts.{named_by};
ghost use Rattle.jac_write.specs.Regrouped.{is_from};
ghost use Rattle.jac_write.specs.Writes.{is_put, sets_at};

use crate::Sets;
use jac_facet::Facet;
use jac_lang::{App, group_of};
use jac_value::Value;

/// The fields that a write names: every field of a new record, the fields of its sets, or the
/// fields guarded by the groups from this one on.
#[derive(Clone, Copy)]
pub(crate) enum Named<'s> {
    Every,
    Set(&'s Sets),
    From(u8),
}

pub(crate) fn is_named(app: &App, model: u8, named: Named<'_>, field: u8) -> bool
    requires model { model < length app.now.models }
    requires field { field < length (fields_at (application_of app.now).models model) }
    ensures { (w : ℕ → Bool) → named_by (application_of app.now).models model w named.entry field
        ≡ result }
{
    match named {
        Named::Every => true,
        Named::Set(sets) => is_put(sets.as_slice(), field),
        Named::From(first) => is_from(first, group_of(app, model, field)),
    }
}

/// Whether there is a group, at this place or after it.
pub(crate) fn is_from(first: u8, group: Option<u8>) -> bool
    ensures { result ≡ is_from first group }
{
    match group {
        Some(group) => first <= group,
        None => false,
    }
}

fn is_put(sets: &[(u8, Facet<Value>)], field: u8) -> bool
    ensures { (w : ℕ → Bool) → is_put (sets_at w sets.now) field ≡ result }
{
    'sets: for set in sets {
        if set.0 == field {
            return true;
        }
    }
    false
}
