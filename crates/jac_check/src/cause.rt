use jac_value::Kind;

// The kind that a form requires. A reference has the place of its model.
#[derive(Clone, Copy)]
pub(crate) enum Expected {
    One(Kind),
    Ordered,
    Reference,
}

// Why a part isn't well. The names are borrowed from the application, so the tests take no memory.
#[derive(Clone, Copy)]
pub(crate) enum Cause<'a> {
    UnknownName(&'a str),
    TwiceNamed(&'a str),
    WrongKind { want: Expected, have: Kind },
    WriteInGet,
    CreateInLoop,
    LoopWanted(&'a str),
    ViewerInPublic,
    NotHere(&'a str),
}
