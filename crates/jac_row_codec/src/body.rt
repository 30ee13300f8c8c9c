ghost use Rattle.std.specs.Prelude.{IfOk, IfErr};
ghost use Rattle.jac_row_codec.specs.Spelling.{SpellsCells};
ghost use Rattle.jac_row_codec.specs.Reading.{StopsBy, AreCellsSpelled};

use crate::cell::cell;
use crate::stop::Stop;
use jac_value::{Cells, Kind};
use std::alloc::Global;

// The cells of these kinds. They must take up all of the bytes.
#[tactic(auto, using(crate::proofs::Rows::cells_start, crate::proofs::Rows::cells_step, crate::proofs::Rows::cells_stop))]
pub(crate) fn cells(alloc: Global, kinds: &[Kind], body: &[u8]) -> Result<Cells, Stop>
    ensures cells { IfOk result (AreCellsSpelled kinds.now body.now) }
    ensures stops { IfErr result (StopsBy (SpellsCells kinds.now) body.now) }
{
    let mut cells = Vec::new(alloc);
    let mut to_come = kinds;
    let mut rest = body;
    'kinds: while let Some((kind, more)) = to_come.split_first() {
        let (value, after) = cell(alloc, *kind, rest)?;
        cells.push(value)?;
        to_come = more;
        rest = after;
    }
    if !rest.is_empty() {
        return Err(Stop::Left(rest.len()));
    }
    Ok(Cells::from_vec(cells))
}
