//! Defines what the SQL statements of a store mean. It has definitions and laws, but no functions.
#![tactic(auto)]
