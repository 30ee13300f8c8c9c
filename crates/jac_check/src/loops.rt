//! The loops around a statement, and what may be created in them.
ghost use Rattle.std.specs.Prelude.{◌≡◌};
ghost use Rattle.jac_lang.specs.Loops.{is_flat, behind_for, may_create};
ghost use Rattle.jac_lang.specs.Mirror.{application_of, binders_of};
ghost use Rattle.jac_check.specs.Mirror.{loops_of};

use jac_lang::{App, Binders, is_nested};

// The loops around a statement. `Single` says whether the loop is over one binder of a model that
// isn't nested.
#[derive(Clone, Copy)]
pub(crate) enum Around {
    Nowhere,
    Single(bool),
    Several,
}

pub(crate) fn behind_for(app: &App, binders: &Binders, around: Around) -> Around
    ensures { loops_of result ≡ behind_for (application_of app.now).models (binders_of binders.now)
        (loops_of around) }
{
    match around {
        Around::Nowhere => Around::Single(is_flat(app, binders)),
        Around::Single(_) | Around::Several => Around::Several,
    }
}

fn is_flat(app: &App, binders: &Binders) -> bool
    ensures { result ≡ is_flat (application_of app.now).models (binders_of binders.now) }
{
    let Binders::More(binder, rest) = binders else {
        return false;
    };
    match &**rest {
        Binders::End => !is_nested(app, &binder.model),
        Binders::More(..) => false,
    }
}

// Whether a record may be created here, by whether its model is nested.
pub(crate) fn may_create(nested: bool, around: Around) -> bool
    ensures { result ≡ may_create nested (loops_of around) }
{
    match around {
        Around::Nowhere => !nested,
        Around::Single(flat) => nested && flat,
        Around::Several => false,
    }
}
