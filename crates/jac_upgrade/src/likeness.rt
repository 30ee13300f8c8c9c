//! Fields with the same name and kind, and groups that guard the same fields or hide records.
ghost use Rattle.std.specs.Prelude.{◌≡◌, ◌&&◌};
ghost use mathlib.Core.Bool.{beq};
ghost use Rattle.jac_lang.specs.Lookup.{same_text};
ghost use Rattle.jac_lang.specs.Mirror.{assigned_of, field_group_of};
ghost use Rattle.jac_upgrade.specs.Alike.{same_field, same_kind, same_group, same_guards};

use jac_lang::{Field, Group, KindName, ModelDef, Publics};

/// Whether the models have the same name, and both are nested or neither is.
pub(crate) fn same_model(one: &ModelDef, other: &ModelDef) -> bool
    ensures { result ≡ (same_text one.now.name other.now.name && beq one.now.nested
        other.now.nested) }
{
    one.name == other.name && one.nested == other.nested
}

/// Whether the fields have the same name and the same kind.
pub(crate) fn same_field(one: &Field, other: &Field) -> bool
    ensures { result ≡ same_field one.now other.now }
{
    one.name == other.name && same_kind(&one.kind, &other.kind)
}

fn same_kind(one: &KindName, other: &KindName) -> bool
    ensures { result ≡ same_kind one.now other.now }
{
    match one {
        KindName::Int => matches!(other, KindName::Int),
        KindName::Text => matches!(other, KindName::Text),
        KindName::Bool => matches!(other, KindName::Bool),
        KindName::Ref(model) => match other {
            KindName::Ref(named) => model == named,
            _ => false,
        },
    }
}

/// Whether the groups guard the same fields, and both hide their records or neither does.
pub(crate) fn same_group(one: &Group, other: &Group) -> bool
    ensures { result ≡ same_group (field_group_of one.now) (field_group_of other.now) }
{
    one.hides == other.hides && same_guards(&one.guards, &other.guards)
}

fn same_guards(one: &Publics, other: &Publics) -> bool
    ensures { result ≡ same_guards (assigned_of one.now) (assigned_of other.now) }
{
    let mut left = one;
    let mut right = other;
    'guards: while let Publics::More(first, rest) = left {
        let Publics::More(second, more) = right else {
            return false;
        };
        if first.field != second.field {
            return false;
        }
        left = rest;
        right = more;
    }
    matches!(right, Publics::End)
}
