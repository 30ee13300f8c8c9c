//! The program's store: in memory, or in a file whose tables are cached. It has a crate of its own,
//! so that its users don't prove again how a connection to a file is dropped.
#![tactic(auto)]

mod content;
mod file;
mod laws;
mod maker;
mod openers;
mod told;
mod vault;

pub use content::{FileContent, FileOpens};
pub use file::FileKeeper;
pub use laws::file_goes_on_telling;
pub use maker::FileMaker;
pub use openers::{FileOpeners, HostOpeners, MakesOpeners, OtherOpeners};
pub use vault::HostVault;
