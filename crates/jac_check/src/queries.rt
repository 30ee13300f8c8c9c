//! The names of a query.
ghost use Rattle.std.specs.Prelude.{◌≡◌, []};
ghost use Rattle.jac_lang.specs.Mirror.{application_of, binders_of};
ghost use Rattle.jac_check.specs.Scope.{is_one_of};
ghost use Rattle.jac_check.specs.NameFaults.{binder_fault, order_fault, sorted_fault, query_names, in_public};
ghost use Rattle.jac_check.specs.Mirror.{fault_of, scope_of, seen_of};

use crate::cause::Cause;
use crate::lookups::{known_model, known_place};
use crate::scope::Scope;
use jac_lang::{App, Binders, Order};
use jac_value::Txt;

// Names that were seen, the last first.
#[derive(Clone, Copy)]
pub(crate) enum Seen<'n> {
    Nothing,
    Name(&'n Txt, &'n Seen<'n>),
}

impl Seen<'_> {
    pub(crate) fn has(&self, name: &Txt) -> bool
        ensures { result ≡ is_one_of name.now (seen_of self.now) }
    {
        let mut left = self;
        'names: while let Seen::Name(first, rest) = left {
            if **first == *name {
                return true;
            }
            left = rest;
        }
        false
    }
}

// Tests that the form with this head is allowed here, and that its binders are well.
pub(crate) fn query_names<'a>(
    scope: &Scope<'_>,
    word: &'a str,
    binders: &'a Binders,
) -> Result<(), Cause<'a>>
    ensures { fault_of result ≡ query_names (scope_of scope.now) word.now (binders_of binders.now) }
{
    in_public(scope, word)?;
    binder_fault(scope.app, &Seen::Nothing, binders)
}

pub(crate) fn in_public<'a>(scope: &Scope<'_>, word: &'a str) -> Result<(), Cause<'a>>
    ensures { fault_of result ≡ in_public (scope_of scope.now) word.now }
{
    if scope.is_public {
        Err(Cause::NotHere(word))
    } else {
        Ok(())
    }
}

fn binder_fault<'a>(app: &App, seen: &Seen<'_>, binders: &'a Binders) -> Result<(), Cause<'a>>
    ensures { fault_of result ≡ binder_fault (application_of app.now).models (seen_of seen.now)
        (binders_of binders.now) }
{
    let Binders::More(binder, rest) = binders else {
        return Ok(());
    };
    if seen.has(&binder.name) {
        return Err(Cause::TwiceNamed(binder.name.as_str()));
    }
    known_model(app, &binder.model)?;
    binder_fault(app, &Seen::Name(&binder.name, &*seen), rest)
}

pub(crate) fn order_fault<'a>(
    app: &App,
    binders: &'a Binders,
    order: &'a Order,
) -> Result<(), Cause<'a>>
    ensures { fault_of result ≡ order_fault (application_of app.now).models (binders_of binders.now)
        order.now }
{
    match order {
        Order::Key => Ok(()),
        Order::Up(name, field) => sorted_fault(app, binders, name, field),
        Order::Down(name, field) => sorted_fault(app, binders, name, field),
    }
}

fn sorted_fault<'a>(
    app: &App,
    binders: &'a Binders,
    name: &'a Txt,
    field: &'a Txt,
) -> Result<(), Cause<'a>>
    ensures { fault_of result ≡ sorted_fault (application_of app.now).models
        (binders_of binders.now) name.now field.now }
{
    let mut left = binders;
    'binders: while let Binders::More(binder, rest) = left {
        if binder.name == *name {
            return known_place(app, &binder.model, field);
        }
        left = rest;
    }
    Err(Cause::UnknownName(name.as_str()))
}
