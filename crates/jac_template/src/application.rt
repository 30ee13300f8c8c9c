ghost use Rattle.std.specs.Prelude.{◌≡◌, ◌<◌, ◌^◌, ◌++◌, ◌∷◌, [], true, length, IfOk, IfErr, OnOk, IsTrue};
ghost use Rattle.jac_lang.specs.Mirror.{application_of, page_of_view, pages_of, statement_of, statements_of};
ghost use Rattle.jac_lang.specs.Syntax.{Page};
ghost use Rattle.jac_template.specs.Applications.{Expanded, ExpandsStatement, ExpandsBody, ExpandsView, ExpandsViews, ExpandsApplication, StatementFault, BodyFault, ViewsFault};
ghost use Rattle.jac_template.specs.Faults.{fault_in_template, refuses_template};
ghost use Rattle.jac_lang.specs.Untemplated.{are_untemplated, are_untemplated_views};

use crate::TemplateFault;
use crate::expansion::expand;
use crate::statements::{before_others, part};
use jac_lang::{App, Stmt, Stmts, View, Views};
use jac_value::Memory;
use std::alloc::Global;

/// The number of the first view, from 0, that has a template with a fault, and its first fault.
#[derive(Drop)]
pub struct ViewFault {
    pub view: u32,
    pub fault: TemplateFault,
}

/// The application, with each template replaced by the block of its statements. If it is refused,
/// it is dropped.
pub fn expand_app(alloc: Global, app: App) -> Result<App, ViewFault>
    requires few { length app.views < 2 ^ 32 }
    ensures application { IfOk result (λ out. ExpandsApplication (application_of app)
        (Expanded.application (application_of out))) }
    ensures fault { IfErr result (λ f. IsTrue (refuses_template f.fault)
        → ExpandsApplication (application_of app) (Expanded.fault f.view
        (fault_in_template f.fault))) }
    ensures untemplated { IfOk result (λ out. are_untemplated_views (application_of out).views
        ≡ true) }
{
    let App {
        viewer,
        models,
        views,
    } = app;
    let views = expand_views(alloc, views)?;
    Ok(App {
        viewer,
        models,
        views,
    })
}

fn expand_views(alloc: Global, views: Views) -> Result<Views, ViewFault>
    requires few { length views < 2 ^ 32 }
    ensures views { IfOk result (λ out. ExpandsViews (pages_of views) (pages_of out)) }
    ensures fault { IfErr result (λ f. IsTrue (refuses_template f.fault)
        → ViewsFault 0 (pages_of views) f.view (fault_in_template f.fault)) }
    ensures untemplated { IfOk result (λ out. are_untemplated_views (pages_of out) ≡ true) }
{
    let mut out = Vec::new(alloc);
    let mut number: u32 = 0;
    'views: for view in views.into_vec() {
        match expand_view(alloc, &mut out, view) {
            Ok(()) => {}
            Err(fault) => {
                return Err(ViewFault {
                    view: number,
                    fault,
                });
            }
        }
        number = number.saturating_add(1);
    }
    Ok(Views::from_vec(out))
}

// Appends the view with its templates expanded.
fn expand_view(alloc: Global, out: &mut Vec<View>, view: View) -> Result<(), TemplateFault>
    ensures view { OnOk result ((p : Page) × ExpandsView (page_of_view view) p
        × (are_untemplated p.body ≡ true) × (pages_of out.new.items ≡ pages_of out.old.items ++ p
        ∷ [])) }
    ensures fault { IfErr result (λ f. IsTrue (refuses_template f) → BodyFault
        (statements_of view.body)
        (fault_in_template f)) }
{
    let View {
        method,
        path,
        params,
        body,
    } = view;
    let body = expand_stmts(alloc, body)?;
    let view = View {
        method,
        path,
        params,
        body,
    };
    match push_view(out, view) {
        Ok(()) => Ok(()),
        Err(Memory) => Err(TemplateFault::Memory),
    }
}

fn push_view(out: &mut Vec<View>, view: View) -> Result<(), Memory>
    ensures { OnOk result (pages_of out.new.items ≡ pages_of out.old.items ++ page_of_view view
        ∷ []) }
{
    out.push(view)?;
    Ok(())
}

#[cycle(expand)]
fn expand_stmts(alloc: Global, stmts: Stmts) -> Result<Stmts, TemplateFault>
    ensures body { IfOk result (λ out. ExpandsBody (statements_of stmts) (statements_of out)) }
    ensures fault { IfErr result (λ f. IsTrue (refuses_template f)
        → BodyFault (statements_of stmts) (fault_in_template f)) }
{
    let mut back = Stmts::End;
    let mut left = stmts;
    'statements: while let Some(parted) = part(left) {
        let one = expand_stmt(alloc, parted.first)?;
        back = before_others(alloc, one, back)?;
        left = parted.rest;
    }
    Ok(back.before(Stmts::End))
}

#[cycle(expand)]
fn expand_stmt(alloc: Global, stmt: Stmt) -> Result<Stmt, TemplateFault>
    ensures statement { IfOk result (λ out. ExpandsStatement (statement_of stmt)
        (statement_of out)) }
    ensures fault { IfErr result (λ f. IsTrue (refuses_template f) → StatementFault
        (statement_of stmt)
        (fault_in_template f)) }
{
    match stmt {
        Stmt::Template(text) => {
            let body = expand(alloc, &text)?;
            Ok(Stmt::Block(body))
        }
        Stmt::Let(name, e, body) => {
            let body = expand_stmts(alloc, body)?;
            Ok(Stmt::Let(name, e, body))
        }
        Stmt::If(c, body, other) => {
            let body = expand_stmts(alloc, body)?;
            let other = expand_stmts(alloc, other)?;
            Ok(Stmt::If(c, body, other))
        }
        Stmt::For(q, body) => {
            let body = expand_stmts(alloc, body)?;
            Ok(Stmt::For(q, body))
        }
        Stmt::Create {
            name,
            model,
            site,
            cells,
            body,
        } => {
            let body = expand_stmts(alloc, body)?;
            Ok(Stmt::Create {
                name,
                model,
                site,
                cells,
                body,
            })
        }
        Stmt::Block(body) => {
            let body = expand_stmts(alloc, body)?;
            Ok(Stmt::Block(body))
        }
        Stmt::Put(e) => Ok(Stmt::Put(e)),
        Stmt::Esc(e) => Ok(Stmt::Esc(e)),
        Stmt::Assign(name, e) => Ok(Stmt::Assign(name, e)),
        Stmt::Update(model, e, cells) => Ok(Stmt::Update(model, e, cells)),
        Stmt::Delete(model, e) => Ok(Stmt::Delete(model, e)),
        Stmt::Missing => Ok(Stmt::Missing),
        Stmt::Redirect(e) => Ok(Stmt::Redirect(e)),
    }
}
