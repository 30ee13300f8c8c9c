ghost use Rattle.std.specs.Prelude.{◌≡◌, ◌<◌, ◌^◌, [], length, Some, None, IfOk, IfErr, IfSome, IsNone, IsTrue};
ghost use Rattle.jac_lang.specs.Mirror.{application_of, entities_of, pages_of};
ghost use Rattle.jac_tree.specs.Printed.{printed_tree};
ghost use Rattle.jac_check.specs.Schema.{schema_tree};
ghost use Rattle.jac_check.specs.Well.{is_well};
ghost use Rattle.jac_check.specs.Applications.{first_fault, models_fault, pages_fault, viewers_fault, is_fault};
ghost use Rattle.jac_check.specs.Mirror.{fault_of};
ghost use Rattle.jac_check.specs.Found.{first_check_fault};

use crate::cause::Cause;
use crate::fault::{CheckCause, CheckFault, Place};
use crate::found::{Found, Spot, fault_at, own};
use crate::lookups::known_model;
use crate::models::model_fault;
use crate::schema::schema_of;
use crate::views::page_fault;
use jac_lang::{App, ModelDef, View};
use jac_value::{Memory, Txt};
use std::alloc::Global;
use std::marker::Model;

/// An application that is well.
#[derive(Drop)]
pub struct Checked {
    app: App,
}

impl Model for Checked {
    ghost use Rattle.std.specs.Prelude.{IsTrue};
    ghost use Rattle.std.specs.Coded.{codes};
    ghost use Rattle.jac_lang.specs.Mirror.{application_of};
    ghost use Rattle.jac_lang.specs.declared.application.App.{App as Item};
    ghost use Rattle.jac_lang.specs.contracts.application.App as item;
    ghost use Rattle.jac_check.specs.Well.{is_well};

    ghost Value = { Item };

    ghost coded = { Prim.hlevel (codes, item.the_row.coded) };

    ghost view = { λ c. c.app };

    ghost invariant = { λ c. IsTrue (is_well (application_of c.app)) };
}

impl Checked {
    /// The application. To contracts, it is the value of this object.
    pub fn app(&self) -> &App
        ensures app { result.now ≡ self.now }
        ensures well { IsTrue (is_well (application_of self.now)) }
    {
        &self.app
    }

    /// The schema text of the application.
    pub fn schema(&self, alloc: Global) -> Result<Txt, Memory>
        ensures { IfOk result
            (λ text. text ≡ printed_tree (schema_tree (application_of self.now).models)) }
    {
        let schema = schema_of(alloc, self.app.models.as_slice())?;
        Ok(schema)
    }
}

/// The application if it is well, or else its first fault: in the viewers' model, then in each
/// model, then in each view, in the order of the text. An application with 2^32 views or more gives
/// `CheckCause::Memory`.
pub fn check(alloc: Global, app: App) -> Result<Checked, CheckFault>
    ensures well { IfOk result (λ c. (c ≡ app) × IsTrue (is_well (application_of c))) }
    ensures faultless { IfOk result (λ c. first_fault (application_of c) ≡ None) }
    ensures fault { IfErr result (λ f. IsTrue (is_fault f.cause) → first_fault (application_of app)
        ≡ Some f) }
{
    match owned_fault(alloc, &app) {
        None => Ok(Checked { app }),
        Some(fault) => Err(fault),
    }
}

fn owned_fault(alloc: Global, app: &App) -> Option<CheckFault>
    ensures none { IsNone result → first_fault (application_of app.now) ≡ None }
    ensures some { IfSome result (λ f. IsTrue (is_fault f.cause)
        → first_fault (application_of app.now) ≡ Some f) }
{
    if app.views.as_slice().len() > u32::MAX as usize {
        return Some(CheckFault {
            place: Place::Viewer,
            cause: CheckCause::Memory,
        });
    }
    match first_fault(app) {
        Ok(()) => None,
        Err(found) => Some(own(alloc, app, &found)),
    }
}

fn first_fault(app: &App) -> Result<(), Found<'_>>
    requires few { length app.now.views < 2 ^ 32 }
    ensures { let a = application_of app.now in first_check_fault a.models result ≡ first_fault a }
{
    fault_at(app, Spot::Viewer, viewers_fault(app))?;
    models_fault(app, app.models.as_slice())?;
    pages_fault(app, app.views.as_slice())
}

fn viewers_fault(app: &App) -> Result<(), Cause<'_>>
    ensures { let a = application_of app.now in fault_of result ≡ viewers_fault a.models a.viewer }
{
    match &app.viewer {
        Some(model) => known_model(app, model),
        None => Ok(()),
    }
}

fn models_fault<'a>(app: &App, models: &'a [ModelDef]) -> Result<(), Found<'a>>
    ensures { let a = application_of app.now in first_check_fault a.models result
        ≡ models_fault a []
        (entities_of models.now) }
{
    for i in 0..models.len() {
        let model = &models[i];
        let cause = model_fault(app, &models[..i], model);
        match fault_at(app, Spot::Model(model.name.as_str()), cause) {
            Ok(()) => {}
            Err(found) => return Err(found),
        }
    }
    Ok(())
}

fn pages_fault<'a>(app: &App, views: &'a [View]) -> Result<(), Found<'a>>
    requires few { length views.now < 2 ^ 32 }
    ensures { let a = application_of app.now in first_check_fault a.models result ≡ pages_fault a 0
        (pages_of views.now) }
{
    let mut number: u32 = 0;
    for view in views {
        match fault_at(app, Spot::View(number), page_fault(app, view)) {
            Ok(()) => number += 1,
            Err(found) => return Err(found),
        }
    }
    Ok(())
}
