//! Tests of public functions that no command calls: one successful call of each, with an expected
//! result from outside the program. The cases of `checks/cases` run all other functions.
#![tactic(auto)]

#[cfg(test)]
mod cache;
#[cfg(test)]
mod facet;
#[cfg(test)]
mod finder;
#[cfg(test)]
mod found;
#[cfg(test)]
mod http;
#[cfg(test)]
mod index;
#[cfg(test)]
mod io;
#[cfg(test)]
mod lists;
#[cfg(test)]
mod rows;
#[cfg(test)]
mod search;
#[cfg(test)]
mod stored;
#[cfg(test)]
mod texts;
#[cfg(test)]
mod why;
#[cfg(test)]
mod world;
