//! A fault with its place, as it is found and as it is returned.
ghost use Rattle.std.specs.Prelude.{◌≡◌, IfOk, IsTrue, slice_get};
ghost use Rattle.jac_lang.specs.Mirror.{application_of, entities_of};
ghost use Rattle.jac_check.specs.Causes.{fault_at, kind_name_of, entity_name, fault_at_place, cause_of, wanted_of};
ghost use Rattle.jac_check.specs.Applications.{is_fault};
ghost use Rattle.jac_check.specs.Mirror.{reason_of, fault_of};
ghost use Rattle.jac_check.specs.Found.{place_of, found_of, first_check_fault};

use crate::cause::{Cause, Expected};
use crate::fault::{CheckCause, CheckFault, Place, Wanted};
use jac_lang::{App, KindName, ModelDef};
use jac_value::{Kind, Memory, Txt};
use std::alloc::Global;

// The place of a fault. The model's name is borrowed from the application.
#[derive(Clone, Copy)]
pub(crate) enum Spot<'a> {
    Viewer,
    Model(&'a str),
    View(u32),
}

#[derive(Clone, Copy)]
pub(crate) struct Found<'a> {
    pub place: Spot<'a>,
    pub cause: Cause<'a>,
}

pub(crate) fn fault_at<'a>(
    app: &App,
    place: Spot<'a>,
    cause: Result<(), Cause<'a>>,
) -> Result<(), Found<'a>>
    ensures { let models = (application_of app.now).models in first_check_fault models result
        ≡ fault_at
        models (place_of place.entry) (fault_of cause.entry) }
{
    match cause {
        Ok(()) => Ok(()),
        Err(cause) => Err(Found { place, cause }),
    }
}

/// The fault with copies of its names. If memory runs out, that is the cause.
pub(crate) fn own(alloc: Global, app: &App, found: &Found<'_>) -> CheckFault
    ensures { IsTrue (is_fault result.cause) → result ≡ found_of (application_of app.now).models
        found.now }
{
    match own_place(alloc, &found.place) {
        Ok(place) => own_at(alloc, app, place, &found.cause),
        Err(_) => CheckFault {
            place: Place::Viewer,
            cause: CheckCause::Memory,
        },
    }
}

fn own_at(alloc: Global, app: &App, place: Place, cause: &Cause<'_>) -> CheckFault
    ensures { IsTrue (is_fault result.cause) → result ≡ fault_at_place
        (application_of app.now).models
        place (reason_of cause.now) }
{
    match own_cause(alloc, app, cause) {
        Ok(cause) => CheckFault { place, cause },
        Err(_) => CheckFault {
            place,
            cause: CheckCause::Memory,
        },
    }
}

fn own_place(alloc: Global, place: &Spot<'_>) -> Result<Place, Memory>
    ensures { IfOk result (λ p. p ≡ place_of place.now) }
{
    match place {
        Spot::Viewer => Ok(Place::Viewer),
        Spot::Model(name) => {
            let name = Txt::from_str(alloc, name)?;
            Ok(Place::Model(name))
        }
        Spot::View(number) => Ok(Place::View(*number)),
    }
}

fn own_cause(alloc: Global, app: &App, cause: &Cause<'_>) -> Result<CheckCause, Memory>
    ensures { IfOk result (λ c. c ≡ cause_of (application_of app.now).models
        (reason_of cause.now)) }
{
    match cause {
        Cause::UnknownName(name) => {
            let name = Txt::from_str(alloc, name)?;
            Ok(CheckCause::UnknownName(name))
        }
        Cause::TwiceNamed(name) => {
            let name = Txt::from_str(alloc, name)?;
            Ok(CheckCause::TwiceNamed(name))
        }
        Cause::WrongKind { want, have } => {
            let want = own_wanted(alloc, app, want)?;
            let have = own_kind(alloc, app, have)?;
            Ok(CheckCause::WrongKind { want, have })
        }
        Cause::WriteInGet => Ok(CheckCause::WriteInGet),
        Cause::CreateInLoop => Ok(CheckCause::CreateInLoop),
        Cause::LoopWanted(name) => {
            let name = Txt::from_str(alloc, name)?;
            Ok(CheckCause::LoopWanted(name))
        }
        Cause::ViewerInPublic => Ok(CheckCause::ViewerInPublic),
        Cause::NotHere(word) => {
            let word = Txt::from_str(alloc, word)?;
            Ok(CheckCause::NotHere(word))
        }
    }
}

fn own_wanted(alloc: Global, app: &App, want: &Expected) -> Result<Wanted, Memory>
    ensures { IfOk result (λ w. w ≡ wanted_of (application_of app.now).models want.now) }
{
    match want {
        Expected::One(kind) => {
            let kind = own_kind(alloc, app, kind)?;
            Ok(Wanted::One(kind))
        }
        Expected::Ordered => Ok(Wanted::Ordered),
        Expected::Reference => Ok(Wanted::Reference),
    }
}

fn own_kind(alloc: Global, app: &App, kind: &Kind) -> Result<KindName, Memory>
    ensures { IfOk result (λ k. k ≡ kind_name_of (application_of app.now).models kind.now) }
{
    match kind {
        Kind::Int => Ok(KindName::Int),
        Kind::Text => Ok(KindName::Text),
        Kind::Bool => Ok(KindName::Bool),
        Kind::Ref(model) => {
            let name = own_name(alloc, app.models.as_slice(), *model)?;
            Ok(KindName::Ref(name))
        }
    }
}

// The name of the model at this place.
#[tactic(auto, using(crate::proofs::NameAt::name_found, crate::proofs::NameAt::name_missing))]
fn own_name(alloc: Global, models: &[ModelDef], model: u8) -> Result<Txt, Memory>
    ensures { IfOk result (λ t. t ≡ entity_name (slice_get (entities_of models.now) model)) }
{
    let place = usize::from(model);
    if place < models.len() {
        models[place].name.copy(alloc)
    } else {
        Ok(Txt::empty(alloc))
    }
}
