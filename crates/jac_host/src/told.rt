//! Messages about failures, on standard error. If standard error takes nothing, the program
//! continues without them.

use std::fmt::Display;
use std::io;

/// Prints what the host reported about this file, port or stream.
pub(crate) fn tell(rt: &HostRuntime, what: &impl Display, error: &io::Error) {
    let _ = eprintln!(rt; "jac: {what}: {error}");
}
