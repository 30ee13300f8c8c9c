//! The cells of a `set`.
ghost use Rattle.std.specs.Prelude.{◌≡◌};
ghost use Rattle.jac_lang.specs.Mirror.{application_of, assigned_of};
ghost use Rattle.jac_check.specs.Scope.{fields_of};
ghost use Rattle.jac_check.specs.Statements.{cells_names, cells_inside, cells_kinds};
ghost use Rattle.jac_check.specs.Mirror.{fault_of, scope_of, seen_of, verdict_of};

use crate::cause::Cause;
use crate::expressions::judge;
use crate::kinds::not_a;
use crate::lookups::{kind_by_place, known_field_of};
use crate::queries::Seen;
use crate::scope::Scope;
use jac_lang::{App, Publics};
use jac_value::Txt;

// Tests that each cell's field is known, and that none is named twice. A model has at most 32
// fields, so the recursion is no deeper.
pub(crate) fn cells_names<'a>(
    app: &App,
    model: &Txt,
    seen: &Seen<'_>,
    cells: &'a Publics,
) -> Result<(), Cause<'a>>
    ensures { fault_of result ≡ cells_names (fields_of (application_of app.now).models model.now)
        (seen_of seen.now) (assigned_of cells.now) }
{
    let Publics::More(cell, rest) = cells else {
        return Ok(());
    };
    known_field_of(app, model, &cell.field)?;
    if seen.has(&cell.field) {
        return Err(Cause::TwiceNamed(cell.field.as_str()));
    }
    cells_names(app, model, &Seen::Name(&cell.field, &*seen), rest)
}

pub(crate) fn cells_inside<'a>(cells: &'a Publics, scope: &Scope<'_>) -> Result<(), Cause<'a>>
    ensures { fault_of result ≡ cells_inside (scope_of scope.now) (assigned_of cells.now) }
{
    let mut left = cells;
    'cells: while let Publics::More(cell, rest) = left {
        match judge(&cell.value, scope) {
            Ok(_) => left = rest,
            Err(cause) => return Err(cause),
        }
    }
    Ok(())
}

pub(crate) fn cells_kinds<'a>(
    model: &Txt,
    cells: &'a Publics,
    scope: &Scope<'_>,
) -> Result<(), Cause<'a>>
    ensures { fault_of result ≡ cells_kinds (scope_of scope.now)
        (fields_of (application_of scope.now.app.now).models model.now) (assigned_of cells.now) }
{
    let mut left = cells;
    'cells: while let Publics::More(cell, rest) = left {
        let want = kind_by_place(scope.app, model, &cell.field);
        match not_a(want, judge(&cell.value, scope)) {
            Ok(()) => left = rest,
            Err(cause) => return Err(cause),
        }
    }
    Ok(())
}
