//! Puts with contracts that name the bytes that were put.
ghost use Rattle.std.specs.Prelude.{◌≡◌, ◌++◌, ℕ, List, Result};
ghost use Rattle.jac_serve_events.specs.Outside.{IsPut, span};

use jac_io::{Failed, Sink};

/// One put. Its bytes are named even if the contents of the sink aren't known.
pub fn put<S: Sink>(sink: &mut S, bytes: &[u8]) -> Result<(), Failed>
    ensures { IsPut (span (S.seen sink.old) (S.seen sink.new)) bytes.now result }
{
    match sink.put(bytes) {
        Ok(()) => Ok(()),
        Err(Failed) => Err(Failed),
    }
}

/// Puts two pieces as one.
pub fn put_two<S: Sink>(sink: &mut S, first: &[u8], second: &[u8]) -> Result<(), Failed>
    ensures { IsPut (span (S.seen sink.old) (S.seen sink.new)) (first.now ++ second.now) result }
{
    match put(sink, first) {
        Ok(()) => match put(sink, second) {
            Ok(()) => Ok(()),
            Err(Failed) => Err(Failed),
        },
        Err(Failed) => Err(Failed),
    }
}

/// Puts three pieces as one.
pub fn put_three<S: Sink>(
    sink: &mut S,
    first: &[u8],
    second: &[u8],
    third: &[u8],
) -> Result<(), Failed>
    ensures { IsPut (span (S.seen sink.old) (S.seen sink.new)) (first.now ++ second.now
        ++ third.now) result }
{
    match put_two(sink, first, second) {
        Ok(()) => match put(sink, third) {
            Ok(()) => Ok(()),
            Err(Failed) => Err(Failed),
        },
        Err(Failed) => Err(Failed),
    }
}

/// Puts four pieces as one.
pub fn put_four<S: Sink>(
    sink: &mut S,
    first: &[u8],
    second: &[u8],
    third: &[u8],
    fourth: &[u8],
) -> Result<(), Failed>
    ensures { IsPut (span (S.seen sink.old) (S.seen sink.new)) (first.now ++ second.now ++ third.now
        ++ fourth.now) result }
{
    match put_three(sink, first, second, third) {
        Ok(()) => match put(sink, fourth) {
            Ok(()) => Ok(()),
            Err(Failed) => Err(Failed),
        },
        Err(Failed) => Err(Failed),
    }
}

/// Puts five pieces as one.
pub fn put_five<S: Sink>(
    sink: &mut S,
    first: &[u8],
    second: &[u8],
    third: &[u8],
    fourth: &[u8],
    fifth: &[u8],
) -> Result<(), Failed>
    ensures { IsPut (span (S.seen sink.old) (S.seen sink.new)) (first.now ++ second.now ++ third.now
        ++ fourth.now ++ fifth.now) result }
{
    match put_four(sink, first, second, third, fourth) {
        Ok(()) => match put(sink, fifth) {
            Ok(()) => Ok(()),
            Err(Failed) => Err(Failed),
        },
        Err(Failed) => Err(Failed),
    }
}
