//! Parses and prints trees. It accepts exactly the grammar, and gives the place of each fault.
#![tactic(auto)]

mod fault;
mod heads;
mod print;
mod read;
mod tree;

pub use fault::TreeFault;
pub use heads::{is_up_to, is_word, nests_within, tail_of};
pub use print::{print_tree, printed_spells_its_tree, spelled_has_atoms};
pub use read::{each_text_is_read, read_text, read_tree, spells_one_tree};
pub use tree::{Tree, Trees};
