use crate::{Fields, Stmts};
use jac_value::{List, Txt};

/// The method of the requests that a view answers.
#[derive(Clone, Copy, PartialEq, Eq)]
pub enum Verb {
    Get,
    Post,
}

/// A view: it answers the requests of its method with a path that matches.
#[derive(Drop)]
pub struct View {
    pub method: Verb,
    pub path: Txt,
    pub params: Fields,
    pub body: Stmts,
}

/// The views of an application in the order of the text. The place of a view is its number.
pub type Views = List<View>;
