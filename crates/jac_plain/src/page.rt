use jac_value::{Bytes, Txt};

/// A piece of a page, made by a statement.
#[derive(Drop)]
pub enum Piece {
    Added(Bytes),
    Missing,
    Redirect(Txt),
}

/// The page that a viewer gets. Only a page of status 303 has a location. Each byte of the location
/// is visible ASCII.
#[derive(Drop)]
pub struct Page {
    pub status: u16,
    pub location: Option<Txt>,
    pub body: Bytes,
}
