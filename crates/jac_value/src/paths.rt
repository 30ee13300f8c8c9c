ghost use Rattle.std.specs.Prelude.{◌≡◌, ◌==◌, ◌-◌, ◌≤◌, length, slice_index};
ghost use Rattle.std.specs.List.{list_all};
ghost use Rattle.jac_value.specs.Parts.{parts_left, option_now};
ghost use Rattle.jac_value.specs.Paths.{is_unreserved, is_fixed_segment, is_braced, inner, is_named_segment, is_segment, segment_name, segments, is_path};

use crate::{first_part, is_name};

/// Whether the bytes are the path of a view: `/` alone, or one or more segments, each after a `/`.
/// A segment is one or more letters, digits, `-`, `_`, `.` and `~`, or a name in braces.
pub fn is_path(path: &[u8]) -> bool
    ensures { result ≡ is_path path.now }
{
    begins_with_slash(path) && are_segments(path)
}

/// The bytes after the first `/` of a path: its segments, separated by `/`. `first_part` gives them
/// one by one. The path `/` has none.
pub fn segments_of(path: &[u8]) -> Option<&[u8]>
    ensures { parts_left 47 (option_now result) ≡ segments path.now }
{
    if path.len() > 1 {
        Some(&path[1..])
    } else {
        None
    }
}

/// The name in a segment of the form `{NAME}`.
pub fn segment_name(part: &[u8]) -> Option<&[u8]>
    ensures { option_now result ≡ segment_name part.now }
{
    if is_named_segment(part) {
        Some(inner(part))
    } else {
        None
    }
}

fn begins_with_slash(path: &[u8]) -> bool
    ensures { result ≡ (slice_index path.now 0 == 47) }
{
    match path.first() {
        Some(first) => *first == b'/',
        None => false,
    }
}

fn are_segments(path: &[u8]) -> bool
    ensures { result ≡ list_all is_segment (segments path.now) }
{
    let mut left = segments_of(path);
    'segments: while let Some(bytes) = left {
        let (part, after) = first_part(bytes, b'/');
        if !is_segment(part) {
            return false;
        }
        left = after;
    }
    true
}

fn is_segment(part: &[u8]) -> bool
    ensures { result ≡ is_segment part.now }
{
    is_fixed_segment(part) || is_named_segment(part)
}

fn is_fixed_segment(part: &[u8]) -> bool
    ensures { result ≡ is_fixed_segment part.now }
{
    !part.is_empty() && are_unreserved(part)
}

fn are_unreserved(part: &[u8]) -> bool
    ensures { result ≡ list_all is_unreserved part.now }
{
    part.iter().all(|byte| is_unreserved(*byte))
}

fn is_unreserved(byte: u8) -> bool
    ensures { result ≡ is_unreserved byte }
{
    byte.is_ascii_alphanumeric() || byte == b'-' || byte == b'_' || byte == b'.' || byte == b'~'
}

fn is_named_segment(part: &[u8]) -> bool
    ensures { result ≡ is_named_segment part.now }
{
    is_braced(part) && is_name(inner(part))
}

fn is_braced(part: &[u8]) -> bool
    ensures { result ≡ is_braced part.now }
{
    part.len() >= 2 && part[0] == b'{' && part[part.len() - 1] == b'}'
}

fn inner(part: &[u8]) -> &[u8]
    requires { 2 ≤ length part.now }
    ensures { result.now ≡ inner part.now }
{
    &part[1..part.len() - 1]
}
