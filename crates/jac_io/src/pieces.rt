ghost use Rattle.std.specs.Prelude.{◌≡◌, ◌≤◌, ◌+◌, ◌-◌, ◌^◌, length};
ghost use Rattle.jac_io.specs.LinkState.{cut, first_piece};

use jac_value::{Bytes, List};
use std::collections::VecDeque;
use std::marker::Model;

/// The input of a connection. A take gives bytes of one piece at most.
pub type Pieces = List<Bytes>;

// The input that wasn't taken yet.
#[derive(Debug, Drop)]
pub(crate) struct Input {
    pieces: VecDeque<Bytes>,
    // The number of bytes of the first piece that were taken.
    from: usize,
}

impl Model for Input {
    ghost use Rattle.std.specs.Prelude.{List, ℕ, ◌≤◌, length};
    ghost use Rattle.jac_io.specs.LinkState.{cut, first_piece};

    ghost Value = { List (List ℕ) };

    ghost view = { λ i. cut i.from i.pieces.items };

    ghost invariant = { λ i. i.from ≤ length (first_piece i.pieces.items) };
}

impl Input {
    ghost use Rattle.std.specs.Prelude.{◌≤◌, take, drop};
    ghost use Rattle.jac_io.specs.LinkState.{cut, first_piece, from_next, has_empty_front};

    pub(crate) fn of_pieces(pieces: Pieces) -> Input
        ensures { result ≡ pieces }
    {
        Input {
            pieces: VecDeque::from(pieces.into_vec()),
            from: 0,
        }
    }

    // The rest of the first piece.
    fn rest(&self) -> &[u8]
        ensures { result.now ≡ first_piece self.now }
    {
        rest_of(&self.pieces, self.from)
    }

    fn is_at_empty(&self) -> bool
        ensures { result ≡ has_empty_front self.now }
    {
        !self.pieces.is_empty() && self.rest().is_empty()
    }

    // Drops the first piece and what is left of it.
    #[tactic(auto, using(crate::proofs::PieceLaws::cut_behind))]
    fn drop_first(&mut self)
        ensures { self.new ≡ drop 1 self.old }
    {
        self.pieces.pop_front();
        self.from = 0;
    }

    #[tactic(auto, using(crate::proofs::PieceLaws::passed_empty, crate::proofs::PieceLaws::fewer_pieces, crate::proofs::PieceLaws::passed_all))]
    fn pass_empty(&mut self)
        ensures { self.new ≡ from_next self.old }
    {
        'empty: while self.is_at_empty() {
            self.drop_first();
        }
    }

    // Writes the front of the first nonempty piece to `into`, and gives the number of bytes. It is
    // 0 only if no input is left or `into` is empty.
    #[tactic(auto, using(crate::proofs::PieceLaws::cut_again))]
    pub(crate) fn take(&mut self, into: &mut [u8]) -> usize
        ensures left { self.new ≡ cut (length into.old) (from_next self.old) }
        ensures within { result ≤ length into.new }
        ensures taken { take result into.new ≡ take (length into.old)
            (first_piece (from_next self.old)) }
        ensures same_length { length into.new ≡ length into.old }
    {
        self.pass_empty();
        let rest = rest_of(&self.pieces, self.from);
        let count = rest.len().min(into.len());
        into[..count].copy_from_slice(&rest[..count]);
        self.from += count;
        count
    }
}

fn rest_of(pieces: &VecDeque<Bytes>, from: usize) -> &[u8]
    requires { from ≤ length (first_piece pieces.now.items) }
    ensures rest { result.now ≡ first_piece (cut from pieces.now.items) }
    ensures fits { from + length result.now ≤ 2 ^ 64 - 1 }
{
    match pieces.front() {
        Some(piece) => &piece.as_slice()[from..],
        None => &[],
    }
}
