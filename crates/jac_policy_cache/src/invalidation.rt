//! The labels whose policies may give other results after a change.
ghost use Rattle.std.specs.Prelude.{◌≡◌};
ghost use Rattle.jac_value.specs.Ids.{record_of_label};
ghost use Rattle.jac_policy_cache.specs.Affected.{is_for, is_in_group, is_same_viewer};

use crate::Labels;
use jac_value::{Id, id_model};
use jac_world::Label;

/// The viewers for whom a policy may give another result.
#[derive(Drop)]
pub enum Audience {
    Everybody,
    /// This viewer. `None` means requests without a viewer.
    Only(Option<Id>),
}

/// A group of a model whose policy may give another result.
#[derive(Drop)]
pub struct AffectedGroup {
    pub model: u8,
    pub group: u8,
    pub viewer: Audience,
}

/// What a change may affect: the labels of each record that it names, the labels of records whose
/// policies find such a record by a value, and the groups whose policies go through a table or read
/// the viewer's own record.
#[derive(Drop)]
pub struct Invalidation {
    pub labels: Labels,
    pub groups: Vec<AffectedGroup>,
}

pub(crate) fn is_in_group(group: &AffectedGroup, label: Label) -> bool
    ensures { result ≡ is_in_group group.now label }
{
    id_model(record_of(label)) == group.model && (label.0 % 8) as u8 == group.group
}

fn record_of(label: Label) -> Id
    ensures { result ≡ record_of_label label }
{
    Id(label.0 / 8)
}

pub(crate) fn is_for(audience: &Audience, viewer: &Option<Id>) -> bool
    ensures { result ≡ is_for audience.now viewer.now }
{
    match audience {
        Audience::Everybody => true,
        Audience::Only(one) => is_same_viewer(one, viewer),
    }
}

fn is_same_viewer(one: &Option<Id>, other: &Option<Id>) -> bool
    ensures { result ≡ is_same_viewer one.now other.now }
{
    match (one, other) {
        (Some(one), Some(other)) => one == other,
        (None, None) => true,
        _ => false,
    }
}
