ghost use Rattle.std.specs.Prelude.{◌≡◌, ◌==◌, ◌<◌, length, position, reverse, map, IfOk, IfSome};
ghost use Rattle.std.specs.List.{slice_split};
ghost use Rattle.std.specs.Str.{str_eq_ignore_ascii_case};
ghost use Rattle.jac_http.specs.Parts.{is_blank, without_blanks, stripped_of_blanks};

use std::alloc::{AllocError, Global};

pub(crate) fn is_same_word(word: &[u8], other: &[u8]) -> bool
    ensures { result ≡ str_eq_ignore_ascii_case word.now other.now }
{
    word.eq_ignore_ascii_case(other)
}

/// The bytes without the spaces and tabs at both ends.
#[tactic(auto, unfolding(crate::specs::Parts::stripped_of_blanks))]
pub(crate) fn trimmed(bytes: &[u8]) -> &[u8]
    ensures { result.now ≡ stripped_of_blanks bytes.now }
{
    without_last_blanks(without_first_blanks(bytes))
}

fn without_first_blanks(bytes: &[u8]) -> &[u8]
    ensures { result.now ≡ without_blanks bytes.now }
{
    let mut kept = bytes;
    'blanks: while let Some((first, rest)) = kept.split_first() {
        if !is_blank(*first) {
            return kept;
        }
        kept = rest;
    }
    kept
}

fn without_last_blanks(bytes: &[u8]) -> &[u8]
    ensures { result.now ≡ reverse (without_blanks (reverse bytes.now)) }
{
    let mut kept = bytes;
    'blanks: while let Some((last, rest)) = kept.split_last() {
        if !is_blank(*last) {
            return kept;
        }
        kept = rest;
    }
    kept
}

fn is_blank(byte: u8) -> bool
    ensures { result ≡ is_blank byte }
{
    byte == b' ' || byte == b'\t'
}

/// The parts that a byte separates.
pub(crate) fn parts(alloc: Global, bytes: &[u8], separator: u8) -> Result<Vec<&[u8]>, AllocError>
    ensures { IfOk result (λ ps. map (λ p. p.now) ps.items ≡ slice_split (λ b. b == separator)
        bytes.now) }
{
    bytes.split(|byte| *byte == separator).collect(alloc)
}

/// The place of the first such byte.
pub(crate) fn place_of(bytes: &[u8], wanted: u8) -> Option<usize>
    ensures place { result ≡ position (λ b. b == wanted) bytes.now }
    ensures within { IfSome result (λ at. at < length bytes.now) }
{
    bytes.iter().position(|byte| *byte == wanted)
}
