//! The kinds that forms require.
ghost use Rattle.std.specs.Prelude.{◌≡◌};
ghost use Rattle.jac_check.specs.Verdict.{Verdict, kind_wanted, not_a, not_ordered, not_reference};
ghost use Rattle.jac_check.specs.Mirror.{fault_of, verdict_of};

use crate::cause::{Cause, Expected};
use jac_value::Kind;

pub(crate) fn want<'a>(want: Kind, have: Kind) -> Result<(), Cause<'a>>
    ensures { fault_of result ≡ kind_wanted want have }
{
    if have == want {
        Ok(())
    } else {
        Err(Cause::WrongKind {
            want: Expected::One(want),
            have,
        })
    }
}

pub(crate) fn want_ordered<'a>(have: Kind) -> Result<(), Cause<'a>>
    ensures { fault_of result ≡ not_ordered (Verdict.kind have) }
{
    match have {
        Kind::Int | Kind::Text => Ok(()),
        Kind::Bool | Kind::Ref(_) => Err(Cause::WrongKind {
            want: Expected::Ordered,
            have,
        }),
    }
}

pub(crate) fn want_reference<'a>(have: Kind) -> Result<(), Cause<'a>>
    ensures { fault_of result ≡ not_reference (Verdict.kind have) }
{
    match have {
        Kind::Ref(_) => Ok(()),
        Kind::Int | Kind::Text | Kind::Bool => Err(Cause::WrongKind {
            want: Expected::Reference,
            have,
        }),
    }
}

// Tests that the kind, if there is one, is this one.
pub(crate) fn not_a<'a>(kind: Kind, have: Result<Kind, Cause<'a>>) -> Result<(), Cause<'a>>
    ensures { fault_of result ≡ not_a kind (verdict_of have.entry) }
{
    match have {
        Ok(have) => want(kind, have),
        Err(_) => Ok(()),
    }
}
