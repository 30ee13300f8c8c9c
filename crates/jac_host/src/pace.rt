//! How long the host waits for the next bytes of a connection that was handed out. Connections are
//! served one after another, so one that brings nothing delays all later ones.
ghost use Rattle.std.specs.Prelude.{◌≡◌, ◌-◌};
ghost use Rattle.std.specs.Time.{instant_nanos};
ghost use Rattle.std.specs.Duration.{as_nanos};
ghost use Rattle.jac_host.specs.Pace.{time_allowed, phase_began, phase_behind};

use crate::frames::{Spot, spot_behind};
use std::time::{Duration, Instant};

// How long a connection may bring nothing after it is handed out. The host doesn't wait for bytes
// that were read ahead.
const FRESH_MILLIS: u64 = 100;

// How long a connection may bring nothing after a reply. The next request of a connection that is
// kept may be under way.
const KEPT_MILLIS: u64 = 20;

// How long a request may take from its first byte to its last, even if its bytes come slowly.
const REQUEST_MILLIS: u64 = 3_000;

/// What the host waits for on a connection.
#[derive(Clone, Copy, PartialEq, Eq)]
pub(crate) enum Phase {
    /// Its first byte.
    Fresh,
    /// The first byte of one more request.
    Kept,
    /// The rest of a request.
    Within,
}

/// What the host waits for on a connection, since when, and the place that the bytes have reached.
#[derive(Clone, Copy)]
pub(crate) struct Pace {
    phase: Phase,
    since: Instant,
    spot: Spot,
}

impl Pace {
    /// The pace of a connection that came at `now`.
    pub(crate) fn new(now: Instant) -> Pace
        ensures phase { result.phase ≡ Phase.Fresh }
        ensures since { result.since ≡ now }
    {
        Pace {
            phase: Phase::Fresh,
            since: now,
            spot: Spot::Between,
        }
    }

    /// Bytes were taken. The first bytes of a request start its time. Later ones don't.
    pub(crate) fn took(&mut self, bytes: &[u8], now: Instant)
        ensures phase { self.new.phase ≡ Phase.Within }
        ensures since { self.new.since ≡ phase_began self.old now }
    {
        match self.phase {
            Phase::Within => {}
            Phase::Fresh | Phase::Kept => self.since = now,
        }
        self.phase = Phase::Within;
        self.spot = spot_behind(self.spot, bytes);
    }

    /// A reply was put. If bytes after its request were taken, they are the beginning of the next
    /// request.
    pub(crate) fn put(&mut self, now: Instant)
        ensures phase { self.new.phase ≡ phase_behind self.old.spot }
        ensures since { self.new.since ≡ now }
        ensures spot { self.new.spot ≡ self.old.spot }
    {
        self.since = now;
        self.phase = phase_behind(self.spot);
    }

    /// How long the host waits after `now`.
    pub(crate) fn left(&self, now: Instant) -> Duration
        ensures { as_nanos result ≡ time_allowed self.now.phase - (instant_nanos now - instant_nanos
            self.now.since) }
    {
        let allowed = match self.phase {
            Phase::Fresh => Duration::from_millis(FRESH_MILLIS),
            Phase::Kept => Duration::from_millis(KEPT_MILLIS),
            Phase::Within => Duration::from_millis(REQUEST_MILLIS),
        };
        allowed.saturating_sub(now.duration_since(self.since))
    }
}

// What the host waits for after a reply, by the place that the bytes have reached.
fn phase_behind(spot: Spot) -> Phase
    ensures { result ≡ phase_behind spot }
{
    match spot {
        Spot::Between => Phase::Kept,
        Spot::Name { .. } | Spot::Length { .. } | Spot::Line { .. } | Spot::Body { .. } =>
            Phase::Within,
    }
}
