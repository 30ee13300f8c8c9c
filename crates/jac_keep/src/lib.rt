//! Traits for keepers, the keeper in memory, and the writes of one request over a keeper.
#![tactic(auto)]

mod alteration;
mod by_field;
mod exchange;
mod fields;
mod gatherer;
mod keeper;
mod last_places;
mod laws;
mod masks;
mod memory_keeper;
mod opening;
mod placement;
mod places;
mod scan;
mod schema;
mod split;
mod stop;
mod table_index;
mod table_indexes;
mod together;
mod vault;
mod work;

pub use alteration::{Alteration, Alterations, Change, is_altered};
pub use keeper::Keeper;
pub use last_places::LastPlaces;
pub use laws::{record_after_change, sound_after_change, sound_if_good};
pub use memory_keeper::MemoryKeeper;
pub use placement::is_in_order;
pub use places::{Place, count_below, count_through, own_near};
pub use scan::holders;
pub use schema::{one_schema, shape_of};
pub use stop::Stop;
pub use table_indexes::TableIndexes;
pub use vault::{AttachFault, Vault};
pub use work::{Overlay, Work, WorkOver};
