use jac_lang::KindName;
use jac_value::Txt;

/// The place of a fault in an application.
#[derive(Drop)]
pub enum Place {
    /// At `(viewer M)`.
    Viewer,
    /// In the model of this name.
    Model(Txt),
    /// In the view of this number, counted from 0 in the order of the text.
    View(u32),
}

/// The kind that a form requires.
#[derive(Drop)]
pub enum Wanted {
    One(KindName),
    /// An int or a text.
    Ordered,
    /// A reference to some model.
    Reference,
}

/// Why an application isn't well.
#[derive(Drop)]
pub enum CheckCause {
    /// No model, field, parameter or binding has this name here.
    UnknownName(Txt),
    TwiceNamed(Txt),
    WrongKind { want: Wanted, have: KindName },
    WriteInGet,
    CreateInLoop,
    /// A record of this nested model may be created only in one loop, over one binder of a model
    /// that isn't nested.
    LoopWanted(Txt),
    ViewerInPublic,
    /// The form that begins with this word, or this name, isn't allowed here.
    NotHere(Txt),
    Memory,
}

/// The first fault of an application.
#[derive(Drop)]
pub struct CheckFault {
    pub place: Place,
    pub cause: CheckCause,
}
