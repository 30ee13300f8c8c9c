ghost use Rattle.std.specs.Prelude.{◌≡◌, ◌++◌, true, IfOk, OnOk};
ghost use Rattle.std.specs.List.{list_all};
ghost use Rattle.jac_value.specs.Names.{is_atom_byte};
ghost use Rattle.jac_value.specs.Paths.{segment_name};
ghost use Rattle.jac_route.specs.PathPairs.{part_text, pair_at, path_pairs};

use crate::words::atom_text;
use crate::{Pair, Pairs};
use jac_value::{Memory, Txt, first_part, segment_name, segments_of};
use percent_encoding::percent_decode;
use std::alloc::Global;

// The values that a path gives to the names in a pattern that it fits.
pub(crate) fn path_pairs(alloc: Global, pattern: &Txt, path: &Txt) -> Result<Pairs, Memory>
    ensures { IfOk result (λ pairs. pairs ≡ path_pairs pattern.now path.now) }
{
    let mut pairs = Vec::new(alloc);
    let mut segments = segments_of(pattern.as_bytes());
    let mut parts = segments_of(path.as_bytes());
    'segments: while let Some(bytes) = segments {
        let (segment, segments_after) = first_part(bytes, b'/');
        let Some(bytes) = parts else {
            return Ok(Pairs::from_vec(pairs));
        };
        let (part, parts_after) = first_part(bytes, b'/');
        push_pair(alloc, segment, part, &mut pairs)?;
        segments = segments_after;
        parts = parts_after;
    }
    Ok(Pairs::from_vec(pairs))
}

fn push_pair(
    alloc: Global,
    segment: &[u8],
    part: &[u8],
    pairs: &mut Vec<Pair>,
) -> Result<(), Memory>
    ensures { OnOk result (pairs.new.items ≡ pairs.old.items ++ pair_at (segment_name segment.now)
        part.now) }
{
    let Some(name) = segment_name(segment) else {
        return Ok(());
    };
    let pair = read_pair(alloc, name, part)?;
    pairs.push(pair)?;
    Ok(())
}

fn read_pair(alloc: Global, name: &[u8], part: &[u8]) -> Result<Pair, Memory>
    requires { list_all is_atom_byte name.now ≡ true }
    ensures name { IfOk result (λ pair. pair.name ≡ name.now) }
    ensures value { IfOk result (λ pair. pair.value ≡ part_text part.now) }
{
    let name = atom_text(alloc, name)?;
    let value = read_part(alloc, part)?;
    Ok(Pair { name, value })
}

// The percent-decoded text of a part of a path.
fn read_part(alloc: Global, part: &[u8]) -> Result<Txt, Memory>
    ensures { IfOk result (λ text. text ≡ part_text part.now) }
{
    let text = percent_decode(part).decode_utf8_lossy(alloc)?;
    let text = text.into_owned(alloc)?;
    Ok(Txt::from_string(text))
}
