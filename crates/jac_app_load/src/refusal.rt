//! The line that says why an application is refused.
ghost use Rattle.std.specs.Prelude.{◌≡◌, ◌++◌, ◌∷◌, [], IfOk, codes, decimal};
ghost use Rattle.std.specs.String.{string_bytes};
ghost use Rattle.jac_check.specs.declared.fault.CheckCause.TheVariants as causes;
ghost use Rattle.jac_check.specs.declared.fault.Place.TheVariants as places;
ghost use Rattle.jac_app_load.specs.Refusal.{refusal_text, text_fault, form_fault_line, path_text, more_steps, want_word, what_word, limit_word, template_fault, template_line, check_fault, placed_fault, cause_text, wanted_text, kind_text};

use jac_check::{CheckCause, CheckFault, Place, Wanted};
use jac_forms::{FormFault, Path, Want, What};
use jac_lang::KindName;
use jac_template::{TemplateFault, ViewFault};
use jac_tree::TreeFault;
use jac_value::{Memory, Txt};
use std::alloc::Global;

/// Why bytes are no application.
#[derive(Drop)]
pub enum Refusal {
    /// They spell no tree.
    Text(TreeFault),
    /// Their tree doesn't have the form of an application.
    Form(FormFault),
    /// A template of one of its views has no form.
    Template(ViewFault),
    /// A name or a kind of the application is wrong.
    Check(CheckFault),
    /// The path of the view with this number conflicts with an earlier one.
    Clash(u32),
    Memory,
}

/// The line that gives the reason.
pub fn refusal_line(alloc: Global, refusal: &Refusal) -> Result<Txt, Memory>
    ensures line { IfOk result (λ line. line ≡ refusal_text refusal.now) }
    ensures refused { IfOk result (λ line. ¬ (refusal.now ≡ Refusal.Memory)) }
{
    match refusal {
        Refusal::Text(fault) => text_line(alloc, *fault),
        Refusal::Form(fault) => form_line(alloc, fault),
        Refusal::Template(fault) => template_line(alloc, fault.view, &fault.fault),
        Refusal::Check(fault) => check_line(alloc, fault),
        Refusal::Clash(view) => view_line(alloc, *view, "path clashes"),
        Refusal::Memory => Err(Memory),
    }
}

fn fixed_line(alloc: Global) -> Result<Txt, Memory>
    ensures { IfOk result (λ line. line ≡ codes "app: refused\n") }
{
    let line = Txt::from_str(alloc, "app: refused\n")?;
    Ok(line)
}

fn text_line(alloc: Global, fault: TreeFault) -> Result<Txt, Memory>
    ensures { IfOk result (λ line. line ≡ text_fault fault) }
{
    match fault {
        TreeFault::NotUtf8(at) => placed_line(alloc, "not UTF-8", at),
        TreeFault::Stray(at) => placed_line(alloc, "stray", at),
        TreeFault::Deep(at) => placed_line(alloc, "deep", at),
        TreeFault::Unclosed(at) => placed_line(alloc, "unclosed", at),
        TreeFault::Long => fixed_line(alloc),
        TreeFault::Memory => fixed_line(alloc),
    }
}

fn placed_line(alloc: Global, what: &str, at: u64) -> Result<Txt, Memory>
    ensures { IfOk result (λ line. line ≡ codes "app: "
        ++ (what.now ++ (codes " at " ++ (decimal at ++ 10 ∷ [])))) }
{
    let line = format!(in alloc; "app: {what} at {at}\n")?;
    Ok(Txt::from_string(line))
}

fn form_line(alloc: Global, fault: &FormFault) -> Result<Txt, Memory>
    ensures { IfOk result (λ line. line ≡ form_fault_line fault.now) }
{
    match fault {
        FormFault::Form { path, want } => {
            let place = path_text(alloc, path)?;
            wanted_line(alloc, place.as_str(), want_word(*want))
        }
        FormFault::TooMany { path, what, have } => {
            let place = path_text(alloc, path)?;
            counted_line(
                alloc,
                place.as_str(),
                what_word(*what),
                *have,
                limit_word(*what),
            )
        }
        FormFault::Memory => Err(Memory),
    }
}

fn wanted_line(alloc: Global, place: &str, want: &str) -> Result<Txt, Memory>
    ensures { IfOk result (λ line. line ≡ codes "app: form at "
        ++ (place.now ++ (codes ": expected " ++ (want.now ++ 10 ∷ [])))) }
{
    let line = format!(in alloc; "app: form at {place}: expected {want}\n")?;
    Ok(Txt::from_string(line))
}

fn counted_line(
    alloc: Global,
    place: &str,
    what: &str,
    have: u64,
    limit: &str,
) -> Result<Txt, Memory>
    ensures { IfOk result (λ line. line ≡ codes "app: too many "
        ++ (what.now
        ++ (codes " at "
        ++ (place.now
        ++ (codes ": " ++ (decimal have ++ (codes ", limit " ++ (limit.now ++ 10 ∷ [])))))))) }
{
    let line = format!(in alloc; "app: too many {what} at {place}: {have}, limit {limit}\n")?;
    Ok(Txt::from_string(line))
}

// The child numbers, joined by points.
fn path_text(alloc: Global, path: &Path) -> Result<Txt, Memory>
    ensures { IfOk result (λ t. t ≡ path_text path.now) }
{
    match path.as_slice().split_first() {
        None => {
            let text = Txt::from_str(alloc, "top")?;
            Ok(text)
        }
        Some((first, rest)) => {
            let mut text = step_text(alloc, *first)?.into_string();
            'steps: for step in rest {
                let step = step_text(alloc, *step)?;
                text.push_str(".")?;
                text.push_str(step.as_str())?;
            }
            Ok(Txt::from_string(text))
        }
    }
}

fn step_text(alloc: Global, step: u32) -> Result<Txt, Memory>
    ensures { IfOk result (λ t. t ≡ decimal step) }
{
    let text = format!(in alloc; "{step}")?;
    Ok(Txt::from_string(text))
}

fn want_word(want: Want) -> &'static str
    ensures { result.now ≡ want_word want }
{
    match want {
        Want::App => "app",
        Want::Item => "item",
        Want::Name => "name",
        Want::Fields => "fields",
        Want::Field => "field",
        Want::Kind => "kind",
        Want::Group => "group",
        Want::Guard => "guard",
        Want::Policy => "policy",
        Want::Method => "method",
        Want::Path => "path",
        Want::Params => "params",
        Want::Param => "param",
        Want::Statement => "statement",
        Want::Set => "set",
        Want::Cell => "cell",
        Want::Body => "body",
        Want::Query => "query",
        Want::Binder => "binder",
        Want::Order => "order",
        Want::Expression => "expression",
    }
}

fn what_word(what: What) -> &'static str
    ensures { result.now ≡ what_word what }
{
    match what {
        What::Models => "models",
        What::Fields => "fields",
        What::Groups => "groups",
        What::Sites => "sites",
        What::Binders => "binders",
    }
}

fn limit_word(what: What) -> &'static str
    ensures { result.now ≡ limit_word what }
{
    match what {
        What::Models => "64",
        What::Fields => "32",
        What::Groups => "8",
        What::Sites => "64",
        What::Binders => "3",
    }
}

fn template_line(alloc: Global, view: u32, fault: &TemplateFault) -> Result<Txt, Memory>
    ensures { IfOk result (λ line. line ≡ template_fault view fault.now) }
{
    match fault {
        TemplateFault::Unclosed(at) => tag_line(alloc, view, "unclosed", *at),
        TemplateFault::Stray(at) => tag_line(alloc, view, "stray", *at),
        TemplateFault::Deep(at) => tag_line(alloc, view, "deep", *at),
        TemplateFault::Tree(at, _) => tag_line(alloc, view, "tree", *at),
        TemplateFault::Form(at, _) => tag_line(alloc, view, "form", *at),
        TemplateFault::Memory => Err(Memory),
    }
}

fn tag_line(alloc: Global, view: u32, what: &str, at: u64) -> Result<Txt, Memory>
    ensures { IfOk result (λ line. line ≡ template_line view what.now at) }
{
    let line = format!(in alloc; "app: template in view {view}: {what} at {at}\n")?;
    Ok(Txt::from_string(line))
}

fn check_line(alloc: Global, fault: &CheckFault) -> Result<Txt, Memory>
    ensures { IfOk result (λ line. line ≡ check_fault fault.now) }
{
    let cause = cause_text(alloc, &fault.cause)?;
    match &fault.place {
        Place::Viewer => viewer_line(alloc, cause.as_str()),
        Place::Model(name) => model_line(alloc, name.as_str(), cause.as_str()),
        Place::View(view) => view_line(alloc, *view, cause.as_str()),
    }
}

fn viewer_line(alloc: Global, cause: &str) -> Result<Txt, Memory>
    ensures { IfOk result (λ line. line ≡ placed_fault places.Viewer cause.now) }
{
    let line = format!(in alloc; "app: viewer: {cause}\n")?;
    Ok(Txt::from_string(line))
}

fn model_line(alloc: Global, name: &str, cause: &str) -> Result<Txt, Memory>
    ensures { IfOk result (λ line. line ≡ placed_fault (places.Model name.now) cause.now) }
{
    let line = format!(in alloc; "app: model {name}: {cause}\n")?;
    Ok(Txt::from_string(line))
}

fn view_line(alloc: Global, view: u32, cause: &str) -> Result<Txt, Memory>
    ensures { IfOk result (λ line. line ≡ placed_fault (places.View view) cause.now) }
{
    let line = format!(in alloc; "app: view {view}: {cause}\n")?;
    Ok(Txt::from_string(line))
}

fn cause_text(alloc: Global, cause: &CheckCause) -> Result<Txt, Memory>
    ensures { IfOk result (λ t. t ≡ cause_text cause.now) }
{
    match cause {
        CheckCause::UnknownName(name) => joined(alloc, "unknown name ", name.as_str()),
        CheckCause::TwiceNamed(name) => joined(alloc, name.as_str(), " named twice"),
        CheckCause::WrongKind { want, have } => wrong_kind(alloc, want, have),
        CheckCause::WriteInGet => joined(alloc, "write in a get view", ""),
        CheckCause::CreateInLoop => joined(alloc, "create in a loop", ""),
        CheckCause::LoopWanted(name) => joined(alloc, name.as_str(), " is created in a loop alone"),
        CheckCause::ViewerInPublic => joined(alloc, "viewer in a public value", ""),
        CheckCause::NotHere(name) => joined(alloc, name.as_str(), " may not stand here"),
        CheckCause::Memory => Err(Memory),
    }
}

fn joined(alloc: Global, first: &str, second: &str) -> Result<Txt, Memory>
    ensures { IfOk result (λ t. t ≡ first.now ++ second.now) }
{
    let text = format!(in alloc; "{first}{second}")?;
    Ok(Txt::from_string(text))
}

fn wrong_kind(alloc: Global, want: &Wanted, have: &KindName) -> Result<Txt, Memory>
    ensures { IfOk result (λ t. t ≡ cause_text (causes.WrongKind want.now have.now)) }
{
    let want = wanted_text(alloc, want)?;
    let have = kind_text(alloc, have)?;
    kinds_text(alloc, want.as_str(), have.as_str())
}

fn kinds_text(alloc: Global, want: &str, have: &str) -> Result<Txt, Memory>
    ensures { IfOk result (λ t. t ≡ codes "wrong kind: want "
        ++ (want.now ++ (codes ", have " ++ have.now))) }
{
    let text = format!(in alloc; "wrong kind: want {want}, have {have}")?;
    Ok(Txt::from_string(text))
}

fn wanted_text(alloc: Global, want: &Wanted) -> Result<Txt, Memory>
    ensures { IfOk result (λ t. t ≡ wanted_text want.now) }
{
    match want {
        Wanted::One(kind) => kind_text(alloc, kind),
        Wanted::Ordered => joined(alloc, "int or text", ""),
        Wanted::Reference => joined(alloc, "ref", ""),
    }
}

fn kind_text(alloc: Global, kind: &KindName) -> Result<Txt, Memory>
    ensures { IfOk result (λ t. t ≡ kind_text kind.now) }
{
    match kind {
        KindName::Int => joined(alloc, "int", ""),
        KindName::Text => joined(alloc, "text", ""),
        KindName::Bool => joined(alloc, "bool", ""),
        KindName::Ref(model) => joined(alloc, "ref ", model.as_str()),
    }
}
