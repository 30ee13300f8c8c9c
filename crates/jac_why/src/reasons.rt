ghost use Rattle.std.specs.Prelude.{◌≡◌};
ghost use Rattle.jac_value.specs.Ids.{record_of_label};
ghost use Rattle.jac_why.specs.Named.{as_reason, names_its_label};

use jac_value::{Id, id_model};
use jac_world::Label;

/// What keeps another label hidden: a label that isn't allowed once that one is shown, with the
/// model of its record and its group.
#[derive(Clone, Copy, PartialEq, Eq)]
pub struct Reason {
    pub label: Label,
    pub model: u8,
    pub group: u8,
}

/// A hidden label, and what keeps it hidden.
#[derive(Clone, Copy, PartialEq, Eq)]
pub struct Explanation {
    pub hidden: Label,
    pub reason: Reason,
}

impl Reason {
    /// The label as a reason.
    pub fn of(label: Label) -> Reason
        ensures { result ≡ as_reason label }
    {
        Reason {
            label,
            model: id_model(record_of(label)),
            group: (label.0 % 8) as u8,
        }
    }

    /// Whether the model and the group are those of the label.
    pub fn names_its_label(&self) -> bool
        ensures { result ≡ names_its_label self.now }
    {
        let named = Reason::of(self.label);
        self.model == named.model && self.group == named.group
    }
}

// The record of the label.
fn record_of(label: Label) -> Id
    ensures { result ≡ record_of_label label }
{
    Id(label.0 / 8)
}
