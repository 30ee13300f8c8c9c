//! From the bytes of a file to an application that is served.
ghost use Rattle.std.specs.Prelude.{◌≡◌, ◌≤◌, ◌⊎◌, length, IfOk, IfErr};
ghost use Rattle.std.specs.List.{All};
ghost use Rattle.jac_lang.specs.Mirror.{application_of};
ghost use Rattle.jac_lang.specs.Syntax.{Application};
ghost use Rattle.jac_lang.specs.Written.{IsWritten, IsWrittenModel};
ghost use Rattle.jac_app_load.specs.Served.{IsSited};
ghost use Rattle.jac_forms.specs.Reads.{got};
ghost use Rattle.jac_tree.specs.Mirror.{plain};
ghost use Rattle.jac_check.specs.Applications.{first_fault};
ghost use Rattle.jac_route.specs.Routes.{AreRoutes, table_of};
ghost use Rattle.jac_app_load.specs.Application.{IsApplication, Opens, OpensForm, opened_checked, opened_routed};
ghost use Rattle.jac_app_load.specs.Refusal.{HasRefusal, IsOpening, text_refusal, form_refusal, template_refusal, check_refusal};

use crate::laws::{schema_of_well, well_is_served};
use crate::refusal::Refusal;
use crate::service::Service;
use jac_check::{CheckCause, CheckFault, Checked, check};
use jac_forms::{FormFault, app_of};
use jac_lang::App;
use jac_route::{RouteFault, Routes, routes_of};
use jac_template::{TemplateFault, ViewFault, expand_app, expands_to_one};
use jac_tree::{Tree, TreeFault, read_tree};
use std::alloc::Global;

/// The application that the bytes spell, or the first step that they fail: the tree, its form, its
/// templates, its names and kinds, its paths.
pub fn read_application(alloc: Global, bytes: &[u8]) -> Result<Service, Refusal>
    requires short { length bytes.now ≤ 1048576 }
    ensures app { IfOk result (λ s. IsApplication bytes.now (application_of s)) }
    ensures refused { IfErr result (λ r. (r ≡ Refusal.Memory) ⊎ HasRefusal bytes.now r) }
    ensures none { IfErr result (λ r. (r ≡ Refusal.Memory)
        ⊎ ((app : Application) → IsApplication bytes.now app → ⊥)) }
{
    expands_to_one();
    match read_tree(alloc, bytes) {
        Ok(tree) => open_tree(alloc, &tree),
        Err(fault) => Err(text_refusal(fault)),
    }
}

fn text_refusal(fault: TreeFault) -> Refusal
    ensures { result ≡ text_refusal fault }
{
    match fault {
        TreeFault::Memory => Refusal::Memory,
        _ => Refusal::Text(fault),
    }
}

fn open_tree(alloc: Global, tree: &Tree) -> Result<Service, Refusal>
    ensures { IsOpening (Opens (plain tree.now)) result }
{
    match app_of(alloc, tree) {
        Ok(app) => open_form(alloc, app),
        Err(fault) => Err(form_refusal(fault)),
    }
}

fn form_refusal(fault: FormFault) -> Refusal
    ensures { result ≡ form_refusal fault }
{
    match fault {
        FormFault::Memory => Refusal::Memory,
        _ => Refusal::Form(fault),
    }
}

fn open_form(alloc: Global, app: App) -> Result<Service, Refusal>
    requires { IsWritten (application_of app) }
    ensures { IsOpening (OpensForm (got (application_of app))) result }
{
    match expand_app(alloc, app) {
        Ok(app) => open_expanded(alloc, app),
        Err(fault) => Err(template_refusal(fault)),
    }
}

fn template_refusal(fault: ViewFault) -> Refusal
    ensures { result ≡ template_refusal fault }
{
    match fault.fault {
        TemplateFault::Memory => Refusal::Memory,
        _ => Refusal::Template(fault),
    }
}

fn open_expanded(alloc: Global, app: App) -> Result<Service, Refusal>
    requires sited { All IsSited (application_of app).views }
    requires models { All IsWrittenModel (application_of app).models }
    ensures { IsOpening (λ o. o ≡ opened_checked (first_fault (application_of app))
        (application_of app)) result }
{
    match check(alloc, app) {
        Ok(checked) => open_checked(alloc, checked),
        Err(fault) => Err(check_refusal(fault)),
    }
}

fn check_refusal(fault: CheckFault) -> Refusal
    ensures { result ≡ check_refusal fault }
{
    match fault.cause {
        CheckCause::Memory => Refusal::Memory,
        _ => Refusal::Check(fault),
    }
}

fn open_checked(alloc: Global, checked: Checked) -> Result<Service, Refusal>
    requires sited { All IsSited (application_of checked).views }
    requires models { All IsWrittenModel (application_of checked).models }
    ensures { IsOpening (λ o. o ≡ opened_routed (table_of (application_of checked))
        (application_of checked)) result }
{
    match routes_of(alloc, checked.app()) {
        Ok(routes) => Ok(open_routed(checked, routes)),
        Err(RouteFault::Clash(view)) => Err(Refusal::Clash(view)),
        Err(RouteFault::Memory) => Err(Refusal::Memory),
    }
}

fn open_routed(checked: Checked, routes: Routes) -> Service
    requires sited { All IsSited (application_of checked).views }
    requires models { All IsWrittenModel (application_of checked).models }
    requires routes { AreRoutes (application_of checked) routes }
    ensures { result ≡ checked }
{
    well_is_served();
    schema_of_well();
    let app = checked.app();
    let _models = app.models.as_slice();
    Service::new(checked, routes)
}
