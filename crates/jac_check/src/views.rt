//! Views: their parameters, the names of their paths, their statements.
ghost use Rattle.std.specs.Prelude.{◌≡◌};
ghost use Rattle.jac_lang.specs.Mirror.{application_of, page_of_view};
ghost use Rattle.jac_check.specs.Scope.{is_get};
ghost use Rattle.jac_check.specs.Applications.{page_fault};
ghost use Rattle.jac_check.specs.Mirror.{fault_of};

use crate::cause::Cause;
use crate::loops::Around;
use crate::models::fields_fault;
use crate::names::Names;
use crate::paths::path_fault;
use crate::statements::{Standing, body_fault};
use jac_lang::{App, Verb, View};

pub(crate) fn page_fault<'a>(app: &App, view: &'a View) -> Result<(), Cause<'a>>
    ensures { fault_of result ≡ page_fault (application_of app.now) (page_of_view view.now) }
{
    fields_fault(app, view.params.as_slice())?;
    path_fault(view.params.as_slice(), view.path.as_str())?;
    let names = Names::Params(&view.params);
    let at = Standing {
        app,
        names: &names,
        is_get: is_get(view.method),
        around: Around::Nowhere,
    };
    body_fault(&view.body, &at)
}

fn is_get(method: Verb) -> bool
    ensures { result ≡ is_get method }
{
    match method {
        Verb::Get => true,
        Verb::Post => false,
    }
}
