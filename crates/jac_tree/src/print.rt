ghost use Rattle.std.specs.Prelude.{◌≡◌, ◌≤◌, ◌++◌, ℕ, List, length, IfOk, OnOk, encode_utf8};
ghost use Rattle.std.specs.String.{string_bytes};
ghost use Rattle.jac_tree.specs.Grammar.{Accepted, Spells};
ghost use Rattle.jac_tree.specs.Mirror.{plain, plain_all};
ghost use Rattle.jac_tree.specs.Plain.{PlainTree, nesting};
ghost use Rattle.jac_tree.specs.Printed.{text_pieces, printed_tree, printed_all, printed_after, HasAtoms};

use crate::{Tree, Trees};
use jac_value::{Bytes, Memory};
use std::alloc::Global;

/// The tree as `(a "b" (c) ())`, with one space between neighbours and no other whitespace. In
/// texts LF, CR, tab, backslash and quote are `\n`, `\r`, `\t`, `\\` and `\"`, and every other byte
/// is printed as it is.
pub fn print_tree(alloc: Global, tree: &Tree) -> Result<Bytes, Memory>
    requires shallow { nesting (plain tree.now) ≤ 64 }
    ensures printed { IfOk result (λ bytes. bytes ≡ printed_tree (plain tree.now)) }

    // `read_tree` reads the printed bytes as the tree, if they are within its limits.
    ensures accepted { IfOk result (λ bytes. HasAtoms (plain tree.now)
        → length bytes ≤ 1048576 → Accepted bytes (plain tree.now)) }
{
    let mut text = String::new(alloc);
    put_tree(tree, &mut text)?;
    Ok(Bytes::from_vec(text.into_bytes()))
}

/// A law: if each atom of a tree has one or more bytes, all of them bytes of atoms, its printed
/// text spells it.
pub fn printed_spells_its_tree()
    ensures { (t : PlainTree) → HasAtoms t → Spells (printed_tree t) t }
{}

/// A law: in a tree that bytes spell, each atom has one or more bytes, all of them bytes of atoms.
/// So its printed text spells it.
pub fn spelled_has_atoms()
    ensures { (bytes : List ℕ) (t : PlainTree) → Spells bytes t → HasAtoms t }
{}

#[cycle(print)]
fn put_tree(tree: &Tree, to: &mut String) -> Result<(), Memory>
    ensures { OnOk result (string_bytes to.new ≡ string_bytes to.old ++ printed_tree
        (plain tree.now)) }
{
    match tree {
        Tree::Atom(atom) => to.push_str(atom.as_str())?,
        Tree::Text(text) => put_text(text.as_str(), to)?,
        Tree::List(trees) => put_list(trees, to)?,
    }
    Ok(())
}

#[cycle(print)]
fn put_list(trees: &Trees, to: &mut String) -> Result<(), Memory>
    ensures { OnOk result (string_bytes to.new ≡ string_bytes to.old ++ printed_tree
        (PlainTree.list (plain_all trees.now))) }
{
    to.push('(')?;
    if let Trees::More(first, rest) = trees {
        put_tree(&**first, to)?;
        put_after(&**rest, to)?;
    }
    to.push(')')?;
    Ok(())
}

// The trees that follow another one.
#[cycle(print)]
fn put_after(trees: &Trees, to: &mut String) -> Result<(), Memory>
    ensures { OnOk result (string_bytes to.new ≡ string_bytes to.old ++ printed_after
        (plain_all trees.now)) }
{
    let mut left = trees;
    'trees: while let Trees::More(first, rest) = left {
        to.push(' ')?;
        put_tree(&**first, to)?;
        left = &**rest;
    }
    Ok(())
}

fn put_text(text: &str, to: &mut String) -> Result<(), Memory>
    ensures { OnOk result (string_bytes to.new ≡ string_bytes to.old ++ printed_tree
        (PlainTree.text text.now)) }
{
    to.push('"')?;
    'characters: for c in text.chars() {
        put_piece(c, to)?;
    }
    to.push('"')?;
    Ok(())
}

// A character of a text.
fn put_piece(c: char, to: &mut String) -> Result<(), Memory>
    ensures { OnOk result (string_bytes to.new ≡ string_bytes to.old ++ text_pieces
        (encode_utf8 c)) }
{
    match c {
        '\n' => to.push_str("\\n")?,
        '\r' => to.push_str("\\r")?,
        '\t' => to.push_str("\\t")?,
        '\\' => to.push_str("\\\\")?,
        '"' => to.push_str("\\\"")?,
        _ => to.push(c)?,
    }
    Ok(())
}
