ghost use Rattle.std.specs.Prelude.{◌≡◌, IfOk};
ghost use Rattle.std.specs.Fmt.{signed_decimal};
ghost use Rattle.jac_tree.specs.Mirror.{plain, plain_all};
ghost use Rattle.jac_tree.specs.Plain.{PlainTree, PlainTrees};
ghost use Rattle.jac_unparse.specs.TreeOf.{form, one, pair, three, two_trees};

use jac_tree::{Tree, Trees};
use jac_value::{Memory, Txt};
use std::alloc::Global;

pub fn word_tree(alloc: Global, word: &str) -> Result<Tree, Memory>
    ensures { IfOk result (λ t. plain t ≡ PlainTree.atom word.now) }
{
    let word = Txt::from_str(alloc, word)?;
    Ok(Tree::Atom(word))
}

pub fn name_tree(alloc: Global, name: &Txt) -> Result<Tree, Memory>
    ensures { IfOk result (λ t. plain t ≡ PlainTree.atom name.now) }
{
    let name = name.copy(alloc)?;
    Ok(Tree::Atom(name))
}

pub fn text_tree(alloc: Global, text: &Txt) -> Result<Tree, Memory>
    ensures { IfOk result (λ t. plain t ≡ PlainTree.text text.now) }
{
    let text = text.copy(alloc)?;
    Ok(Tree::Text(text))
}

pub fn number_tree(alloc: Global, number: i64) -> Result<Tree, Memory>
    ensures { IfOk result (λ t. plain t ≡ PlainTree.atom (signed_decimal number)) }
{
    let digits = format!(in alloc; "{number}")?;
    Ok(Tree::Atom(Txt::from_string(digits)))
}

/// The tree, followed by the others.
pub fn more(alloc: Global, first: Tree, rest: Trees) -> Result<Trees, Memory>
    ensures { IfOk result (λ ts. plain_all ts ≡ PlainTrees.more (plain first) (plain_all rest)) }
{
    let first = Box::new(alloc, first)?;
    let rest = Box::new(alloc, rest)?;
    Ok(Trees::More(first, rest))
}

pub fn one(alloc: Global, first: Tree) -> Result<Trees, Memory>
    ensures { IfOk result (λ ts. plain_all ts ≡ one (plain first)) }
{
    more(alloc, first, Trees::End)
}

pub fn two(alloc: Global, first: Tree, second: Tree) -> Result<Trees, Memory>
    ensures { IfOk result (λ ts. plain_all ts ≡ two_trees (plain first) (plain second)) }
{
    let rest = one(alloc, second)?;
    more(alloc, first, rest)
}

pub fn three(alloc: Global, first: Tree, second: Tree, third: Tree) -> Result<Trees, Memory>
    ensures { IfOk result (λ ts. plain_all ts ≡ three (plain first) (plain second) (plain third)) }
{
    let rest = two(alloc, second, third)?;
    more(alloc, first, rest)
}

/// The list of the word and the trees.
pub fn form(alloc: Global, word: &str, rest: Trees) -> Result<Tree, Memory>
    ensures { IfOk result (λ t. plain t ≡ form word.now (plain_all rest)) }
{
    let word = word_tree(alloc, word)?;
    let trees = more(alloc, word, rest)?;
    Ok(Tree::List(trees))
}

pub fn form_of_one(alloc: Global, word: &str, first: Tree) -> Result<Tree, Memory>
    ensures { IfOk result (λ t. plain t ≡ form word.now (one (plain first))) }
{
    let rest = one(alloc, first)?;
    form(alloc, word, rest)
}

pub fn form_of_two(alloc: Global, word: &str, first: Tree, second: Tree) -> Result<Tree, Memory>
    ensures { IfOk result (λ t. plain t ≡ form word.now (two_trees (plain first) (plain second))) }
{
    let rest = two(alloc, first, second)?;
    form(alloc, word, rest)
}

pub fn form_of_three(
    alloc: Global,
    word: &str,
    first: Tree,
    second: Tree,
    third: Tree,
) -> Result<Tree, Memory>
    ensures { IfOk result (λ t. plain t ≡ form word.now (three (plain first) (plain second)
        (plain third))) }
{
    let rest = three(alloc, first, second, third)?;
    form(alloc, word, rest)
}

/// A list of a name and a tree.
pub fn pair(alloc: Global, name: &Txt, second: Tree) -> Result<Tree, Memory>
    ensures { IfOk result (λ t. plain t ≡ pair name.now (plain second)) }
{
    let name = name_tree(alloc, name)?;
    let trees = two(alloc, name, second)?;
    Ok(Tree::List(trees))
}
