//! A request and its answer.

use jac_route::Pairs;
use jac_value::{Bytes, Id, Txt};
use jac_world::Assignment;

/// A request: the viewer, and what is asked for. The pairs are those of the query, followed for a
/// POST by those of the form body.
#[derive(Drop)]
pub struct Ask {
    pub viewer: Option<Id>,
    pub method: Txt,
    pub path: Txt,
    pub pairs: Pairs,
}

/// The answer to a request: a page and the labels under which it was made, or a refusal without
/// labels. If only the labels were resolved that the page consulted, it has these too.
#[derive(Drop)]
pub struct Answer {
    pub status: u16,
    pub location: Option<Txt>,
    /// The methods that the path has, if it doesn't have the method of the request.
    pub allow: Option<Txt>,
    pub body: Bytes,
    pub shown: Option<Assignment>,
    /// The labels that were consulted, by rising number, if no others were resolved.
    pub consulted: Option<Assignment>,
}
