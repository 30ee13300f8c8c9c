use jac_facet::Facet;
use jac_value::{List, Value};

/// New cells of a record, each with the place of its field. If a field occurs twice, the last one
/// counts.
pub type Sets = List<(u8, Facet<Value>)>;
