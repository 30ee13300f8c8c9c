ghost use Rattle.std.specs.Prelude.{◌≡◌, ◌≤◌, length, true, IfOk};
ghost use Rattle.jac_lang.specs.Mirror.{application_of};
ghost use Rattle.jac_app_load.specs.Served.{are_served};
ghost use Rattle.jac_route.specs.Routes.{AreRoutes};
ghost use Rattle.jac_plain.specs.Models.{shapes_of};
ghost use Rattle.jac_keep.specs.Schema.{IsSchema};
ghost use Rattle.jac_app_load.specs.Application.{schema_text};

use jac_check::Checked;
use jac_lang::App;
use jac_route::Routes;
use jac_value::{Memory, Txt};
use std::alloc::Global;
use std::marker::Model;

/// An application that can be served: it is well, and it has its routes.
#[derive(Drop)]
pub struct Service {
    checked: Checked,
    routes: Routes,
}

impl Model for Service {
    ghost use Rattle.std.specs.Prelude.{◌≡◌, true};
    ghost use Rattle.std.specs.Coded.{codes};
    ghost use Rattle.jac_lang.specs.Mirror.{application_of};
    ghost use Rattle.jac_lang.specs.declared.application.App.{App as Item};
    ghost use Rattle.jac_lang.specs.contracts.application.App as item;
    ghost use Rattle.jac_app_load.specs.Served.{are_served};
    ghost use Rattle.jac_route.specs.Routes.{AreRoutes};
    ghost use Rattle.jac_plain.specs.Models.{shapes_of};
    ghost use Rattle.jac_keep.specs.Schema.{IsSchema};
    ghost use Rattle.jac_app_load.specs.Application.{schema_text};

    ghost Value = { Item };

    ghost coded = { Prim.hlevel (codes, item.the_row.coded) };

    ghost view = { λ s. s.checked };

    ghost invariant = { λ s. (are_served (application_of s.checked) ≡ true) × AreRoutes (application_of s.checked) s.routes × IsSchema (schema_text (application_of s.checked)) (shapes_of (application_of s.checked)) };
}

impl Service {
    pub fn new(checked: Checked, routes: Routes) -> Service
        requires served { are_served (application_of checked) ≡ true }
        requires routes { AreRoutes (application_of checked) routes }
        requires schema { IsSchema (schema_text (application_of checked))
            (shapes_of (application_of checked)) }
        ensures { result ≡ checked }
    {
        Service { checked, routes }
    }

    /// The application. Contracts see a `Service` as its application too.
    pub fn app(&self) -> &App
        ensures app { result.now ≡ self.now }
        ensures served { are_served (application_of self.now) ≡ true }
        ensures few { length (application_of self.now).models ≤ 64 }
    {
        let app = self.checked.app();
        let _models = app.models.as_slice();
        app
    }

    pub fn routes(&self) -> &Routes
        ensures { AreRoutes (application_of self.now) result.now }
    {
        &self.routes
    }

    /// The schema under which the application's records are stored.
    pub fn schema(&self, alloc: Global) -> Result<Txt, Memory>
        ensures text { IfOk result (λ t. t ≡ schema_text (application_of self.now)) }
        ensures schema { IsSchema (schema_text (application_of self.now))
            (shapes_of (application_of self.now)) }
    {
        self.checked.schema(alloc)
    }
}
