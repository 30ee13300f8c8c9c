//! The names in a view's path.
ghost use Rattle.std.specs.Prelude.{◌≡◌, ◌∷◌, []};
ghost use Rattle.jac_value.specs.Parts.{option_now};
ghost use Rattle.jac_value.specs.Paths.{names_in, segment_name, segments};
ghost use Rattle.jac_check.specs.Applications.{path_fault};
ghost use Rattle.jac_check.specs.Mirror.{fault_of};

use crate::cause::Cause;
use crate::models::has_field;
use jac_lang::Field;
use jac_value::{first_part, segment_name, segments_of};
use std::str::from_utf8;

/// Tests that each name in the path is one of the parameters.
#[tactic(auto, using(crate::proofs::PathNames::segment_first))]
pub(crate) fn path_fault<'a>(params: &[Field], path: &'a str) -> Result<(), Cause<'a>>
    ensures { fault_of result ≡ path_fault params.now (names_in (segments path.now)) }
{
    let mut left = segments_of(path.as_bytes());
    'segments: while let Some(bytes) = left {
        let (segment, after) = first_part(bytes, b'/');
        match segment_fault(params, segment) {
            Ok(()) => left = after,
            Err(cause) => return Err(cause),
        }
    }
    Ok(())
}

// Tests that the name in the segment, if it has one, is one of the parameters.
fn segment_fault<'a>(params: &[Field], segment: &'a [u8]) -> Result<(), Cause<'a>>
    ensures { fault_of result ≡ path_fault params.now (names_in (segment.now ∷ [])) }
{
    let Some(name) = name_in(segment) else {
        return Ok(());
    };
    if has_field(params, name) {
        Ok(())
    } else {
        Err(Cause::UnknownName(name))
    }
}

fn name_in(segment: &[u8]) -> Option<&str>
    ensures { option_now result ≡ segment_name segment.now }
{
    let name = segment_name(segment)?;
    match from_utf8(name) {
        Ok(name) => Some(name),
        Err(_) => unreachable!(),
    }
}
