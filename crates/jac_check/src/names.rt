ghost use Rattle.std.specs.Prelude.{◌≡◌, None};
ghost use Rattle.jac_lang.specs.Mirror.{application_of, binders_of};
ghost use Rattle.jac_check.specs.Scope.{meaning_of, named_binders, named_fields};
ghost use Rattle.jac_check.specs.Mirror.{names_of};

use crate::lookups::{kind_by_name, reference_to};
use jac_lang::{App, Binders, Field, Fields};
use jac_value::{Kind, Txt};

// The bound names, the innermost first.
#[derive(Clone, Copy)]
pub(crate) enum Names<'n> {
    Nothing,
    Params(&'n Fields),
    Bound {
        name: &'n Txt,
        kind: Kind,
        by_let: bool,
        outer: &'n Names<'n>,
    },
    Binders {
        binders: &'n Binders,
        outer: &'n Names<'n>,
    },
}

// The meaning of a bound name: the kind of its value, and whether a `let` binds it.
#[derive(Clone, Copy)]
pub(crate) struct Meaning {
    pub kind: Kind,
    pub by_let: bool,
}

// The meaning of the innermost binding of the name.
pub(crate) fn look_up(app: &App, names: &Names<'_>, name: &Txt) -> Option<Meaning>
    ensures { result ≡ meaning_of (names_of (application_of app.now).models names.now) name.now }
{
    let mut left = names;
    'outwards: loop {
        match left {
            Names::Nothing => return None,
            Names::Params(fields) => return of_fields(app, fields.as_slice(), name),
            Names::Bound {
                name: bound,
                kind,
                by_let,
                outer,
            } => {
                if **bound == *name {
                    return Some(Meaning {
                        kind: *kind,
                        by_let: *by_let,
                    });
                }
                left = outer;
            }
            Names::Binders { binders, outer } => {
                if let Some(found) = of_binders(app, binders, name) {
                    return Some(found);
                }
                left = outer;
            }
        }
    }
}

fn of_fields(app: &App, fields: &[Field], name: &Txt) -> Option<Meaning>
    ensures { result ≡ meaning_of (named_fields (application_of app.now).models fields.now)
        name.now }
{
    let mut found = None;
    'fields: for field in fields {
        if field.name == *name {
            let kind = kind_by_name(app, &field.kind);
            found = Some(Meaning {
                kind,
                by_let: false,
            });
        }
    }
    found
}

fn of_binders(app: &App, binders: &Binders, name: &Txt) -> Option<Meaning>
    ensures { result ≡ meaning_of (named_binders (application_of app.now).models
        (binders_of binders.now)) name.now }
{
    let mut found = None;
    let mut left = binders;
    'binders: while let Binders::More(binder, rest) = left {
        if binder.name == *name {
            let kind = reference_to(app, &binder.model);
            found = Some(Meaning {
                kind,
                by_let: false,
            });
        }
        left = rest;
    }
    found
}
