//! Tests of the connections of `jac_host`, over the loopback address. They have a crate of their
//! own, so that `jac_host` isn't proved again for them.
#![tactic(auto)]

#[cfg(test)]
mod connections;
