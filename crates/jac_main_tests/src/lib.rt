//! Tests of `run` over files, sinks, a keeper and a door in memory that fail at chosen calls, and
//! over a database in memory. They are apart so that the program isn't proved again for them.
#![tactic(auto)]

#[cfg(test)]
mod database;
#[cfg(test)]
mod faults;
#[cfg(test)]
mod links;
#[cfg(test)]
mod scripts;
