//! A listening port that the program inherits from the process that started it, as systemd hands
//! one over for a socket unit (sd_listen_fds(3)).
use os::FromRawFd;
use std::net::TcpListener;
use std::{env, process};

// The first descriptor that is handed over.
const FIRST: i32 = 3;

/// The port that was handed over to this process, if there is one. It takes ownership of the
/// descriptor, so it is called once.
pub(crate) fn inherited(rt: &HostRuntime) -> Option<TcpListener> {
    let whose = number(rt, "LISTEN_PID")?;
    let count = number(rt, "LISTEN_FDS")?;
    if whose == process::id(rt.process()) && count == 1 {
        Some(unsafe { TcpListener::from_raw_fd(FIRST) })
    } else {
        None
    }
}

// The number in this environment variable.
fn number(rt: &HostRuntime, name: &str) -> Option<u32> {
    env::var(rt, name).ok()?.parse().ok()
}
