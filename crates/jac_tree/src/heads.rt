ghost use Rattle.std.specs.Prelude.{◌≡◌, nat_le};
ghost use Rattle.std.specs.Option.{option_map};
ghost use Rattle.jac_tree.specs.Mirror.{plain, plain_all};
ghost use Rattle.jac_tree.specs.Plain.{count, is_word, nesting, nesting_all, tail_of};

use crate::{Tree, Trees};

/// Whether the tree is this word as an atom.
pub fn is_word(tree: &Tree, word: &[u8]) -> bool
    ensures { result ≡ is_word word.now (plain tree.now) }
{
    match tree {
        Tree::Atom(atom) => atom.as_bytes() == word,
        Tree::Text(_) => false,
        Tree::List(_) => false,
    }
}

/// The trees after the head of a list, if the head is this word.
pub fn tail_of<'t>(tree: &'t Tree, word: &[u8]) -> Option<&'t Trees>
    ensures { option_map (λ ts. plain_all ts.now) result ≡ tail_of word.now (plain tree.now) }
{
    match tree {
        Tree::List(Trees::More(head, rest)) => if is_word(head, word) {
            Some(&**rest)
        } else {
            None
        },
        _ => None,
    }
}

/// Whether there are at most `most` trees.
pub fn is_up_to(trees: &Trees, most: u64) -> bool
    ensures { result ≡ nat_le (count (plain_all trees.now)) most }
{
    let mut room = most;
    let mut left = trees;
    'trees: while let Trees::More(_, rest) = left {
        if room == 0 {
            return false;
        }
        room -= 1;
        left = rest;
    }
    true
}

/// Whether each place of the tree is inside at most `levels` lists. It recurses no deeper than
/// that.
#[cycle(depth)]
pub fn nests_within(tree: &Tree, levels: u64) -> bool
    ensures { result ≡ nat_le (nesting (plain tree.now)) levels }
{
    match tree {
        Tree::Atom(_) => true,
        Tree::Text(_) => true,
        Tree::List(trees) => if levels == 0 {
            false
        } else {
            nest_within(trees, levels - 1)
        },
    }
}

#[cycle(depth)]
fn nest_within(trees: &Trees, levels: u64) -> bool
    ensures { result ≡ nat_le (nesting_all (plain_all trees.now)) levels }
{
    let mut left = trees;
    'trees: while let Trees::More(first, rest) = left {
        if !nests_within(&**first, levels) {
            return false;
        }
        left = &**rest;
    }
    true
}
