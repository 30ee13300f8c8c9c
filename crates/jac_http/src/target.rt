ghost use Rattle.std.specs.Prelude.{◌≡◌, ◌==◌, ◌<◌, length, position, take, drop, codes, IfOk, IfSome};
ghost use Rattle.std.specs.List.{position_or_len, before_first, after_first};
ghost use Rattle.std.specs.Str.{str_eq_ignore_ascii_case};
ghost use Rattle.jac_http.specs.Parts.{is_target, ends_authority, behind_authority, path_or_root, path_of_target, query_of};

use crate::words::{is_same_word, place_of};
use jac_value::{Bytes, Memory, Txt};
use std::alloc::Global;
use std::str::from_utf8;

/// Whether the target is a path, or an address that begins with `http://`.
pub(crate) fn is_target(target: &[u8]) -> bool
    ensures { result ≡ is_target target.now }
{
    target.starts_with(b"/") || has_scheme(target)
}

fn has_scheme(target: &[u8]) -> bool
    ensures { result ≡ str_eq_ignore_ascii_case (take 7 target.now) (codes "http://") }
{
    is_same_word(&target[..target.len().min(7)], b"http://")
}

/// The path, or `/` if the target has none.
pub(crate) fn path_of(alloc: Global, target: &str) -> Result<Txt, Memory>
    ensures { IfOk result (λ t. t ≡ path_of_target target.now) }
{
    let path = from_utf8(path_in(target.as_bytes())).unwrap();
    let path = Txt::from_str(alloc, path)?;
    Ok(path)
}

fn path_in(target: &[u8]) -> &[u8]
    ensures { result.now ≡ path_of_target target.now }
{
    path_or_root(before_query(behind_authority(target)))
}

fn path_or_root(path: &[u8]) -> &[u8]
    ensures { result.now ≡ path_or_root path.now }
{
    match path {
        [] => b"/",
        [_, ..] => path,
    }
}

fn before_query(target: &[u8]) -> &[u8]
    ensures { result.now ≡ before_first (λ b. b == 63) target.now }
{
    match place_of(target, b'?') {
        Some(at) => &target[..at],
        None => target,
    }
}

/// What follows the first `?` of the target.
pub(crate) fn query_of(alloc: Global, target: &str) -> Result<Bytes, Memory>
    ensures { IfOk result (λ q. q ≡ query_of target.now) }
{
    let query = query_in(behind_authority(target.as_bytes()));
    let query = Bytes::from_slice(alloc, query)?;
    Ok(query)
}

fn query_in(target: &[u8]) -> &[u8]
    ensures { result.now ≡ after_first (λ b. b == 63) target.now }
{
    match place_of(target, b'?') {
        Some(at) => &target[at + 1..],
        None => &target[target.len()..],
    }
}

fn behind_authority(target: &[u8]) -> &[u8]
    ensures { result.now ≡ behind_authority target.now }
{
    if target.starts_with(b"/") {
        return target;
    }
    from_path(&target[target.len().min(7)..])
}

fn from_path(target: &[u8]) -> &[u8]
    ensures { result.now ≡ drop (position_or_len ends_authority target.now) target.now }
{
    match path_place(target) {
        Some(at) => &target[at..],
        None => &target[target.len()..],
    }
}

fn path_place(target: &[u8]) -> Option<usize>
    ensures place { result ≡ position ends_authority target.now }
    ensures within { IfSome result (λ at. at < length target.now) }
{
    target.iter().position(|byte| ends_authority(*byte))
}

fn ends_authority(byte: u8) -> bool
    ensures { result ≡ ends_authority byte }
{
    byte == b'/' || byte == b'?'
}
