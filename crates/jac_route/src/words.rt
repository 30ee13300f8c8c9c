ghost use Rattle.std.specs.Prelude.{◌≡◌, ◌==◌, ◌<◌, true, IfOk, IfSome, length, position, Some, None};
ghost use Rattle.std.specs.Option.{option_map};
ghost use Rattle.std.specs.List.{list_all};
ghost use Rattle.jac_value.specs.Names.{is_atom_byte};
ghost use Rattle.jac_route.specs.Words.{first_word};

use jac_value::{Memory, Txt, TxtFault};
use std::alloc::Global;
use std::str;

// The word before the first space, and what follows that space.
pub(crate) fn first_word(line: &[u8]) -> Option<(&[u8], &[u8])>
    ensures { option_map (λ p. (p.0.now, p.1.now)) result ≡ first_word line.now }
{
    match space(line) {
        Some(at) => Some((&line[..at], &line[at + 1..])),
        None => None,
    }
}

fn space(line: &[u8]) -> Option<usize>
    ensures place { result ≡ position (λ b. b == 32) line.now }
    ensures within { IfSome result (λ at. at < length line.now) }
{
    line.iter().position(|byte| *byte == b' ')
}

// The bytes, which are letters, digits, `-` and `_`, as a text.
#[tactic(auto, using(crate::proofs::AsciiLaws::utf8_atom))]
pub(crate) fn atom_text(alloc: Global, bytes: &[u8]) -> Result<Txt, Memory>
    requires { list_all is_atom_byte bytes.now ≡ true }
    ensures { IfOk result (λ t. t ≡ bytes.now) }
{
    match Txt::from_bytes(alloc, bytes) {
        Ok(text) => Ok(text),
        Err(TxtFault::Memory) => Err(Memory),
        Err(TxtFault::NotUtf8(_)) => unreachable!(),
    }
}
