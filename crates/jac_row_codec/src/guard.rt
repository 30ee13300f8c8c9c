ghost use Rattle.std.specs.Prelude.{◌<◌, length, IfOk, IfErr};
ghost use Rattle.jac_row_codec.specs.Spelling.{SpellsGuard};
ghost use Rattle.jac_row_codec.specs.Reading.{StopsBy, IsSpelledGuard, SpellsFrom, IsPairIn, next_low};

use crate::cell::sign;
use crate::number::number;
use crate::stop::Stop;
use jac_world::{Guard, Label};
use std::alloc::Global;

// The guard. It must take up all of the bytes.
#[tactic(auto, using(crate::proofs::Guards::guard_start, crate::proofs::Guards::guard_stop, crate::proofs::Guards::guard_end, crate::proofs::Guards::guard_rises, crate::proofs::Guards::pair_shorter))]
pub(crate) fn guard(alloc: Global, jvars: &[u8]) -> Result<Guard, Stop>
    ensures guard { IfOk result (IsSpelledGuard jvars.now) }
    ensures stops { IfErr result (StopsBy SpellsGuard jvars.now) }
{
    let mut pairs = Vec::new(alloc);
    let mut low = Some(0);
    let mut rest = jvars;
    'pairs: while !rest.is_empty() {
        let (number, sign, after) = pair(low, rest)?;
        pairs.push((Label(number), sign))?;
        low = number.checked_add(1);
        rest = after;
    }
    Ok(Guard::from_pairs(pairs))
}

// The first pair. Its label is `low` or more. After the greatest label there is no pair.
#[tactic(auto, using(crate::proofs::Guards::greatest_stops))]
fn pair(low: Option<u128>, bytes: &[u8]) -> Result<(u128, bool, &[u8]), Stop>
    requires { 0 < length bytes.now }
    ensures pair { IfOk result (λ r. IsPairIn (next_low low) bytes.now (r.0, r.1) r.2.now) }
    ensures stops { IfErr result (StopsBy (SpellsFrom (next_low low)) bytes.now) }
{
    match low {
        Some(low) => pair_from(low, bytes),
        None => Err(Stop::Left(bytes.len())),
    }
}

#[tactic(auto, using(crate::proofs::Guards::label_stops, crate::proofs::Guards::pair_stops, crate::proofs::Guards::pair_read))]
fn pair_from(low: u128, bytes: &[u8]) -> Result<(u128, bool, &[u8]), Stop>
    requires { 0 < length bytes.now }
    ensures pair { IfOk result (λ r. IsPairIn low bytes.now (r.0, r.1) r.2.now) }
    ensures stops { IfErr result (StopsBy (SpellsFrom low) bytes.now) }
{
    let (label, rest) = number(bytes, 16, low, 0xFFFF_FFFF_FFFF_FFFF_FFFF_FFFF_FFFF_FFFF)?;
    let (sign, rest) = sign(rest)?;
    Ok((label, sign, rest))
}
