ghost use Rattle.std.specs.Prelude.{◌≡◌, IfOk, IfErr, IsTrue};
ghost use Rattle.jac_lang.specs.Mirror.{binders_of};
ghost use Rattle.jac_tree.specs.Mirror.{plain, plain_all};
ghost use Rattle.jac_forms.specs.Expressions.{binder_in_tree, binders_in_tree, binders_in_trees, has_few, key_of_sort, most_binders, order_in_tree, some_binders, sort_key, sorting_in_trees};
ghost use Rattle.jac_forms.specs.Places.{path_of};
ghost use Rattle.jac_forms.specs.Reads.{got, refused};
ghost use Rattle.jac_forms.specs.Refusal.{refuses};

use crate::names::{count, next_number, read_name};
use crate::place::Place;
use crate::{FormFault, Want, What};
use jac_lang::{Binder, Binders, Order};
use jac_tree::{Tree, Trees, is_up_to, is_word};
use jac_value::Txt;
use std::alloc::Global;

/// How many binders a query may have: one if its results are counted or summed, or else three.
#[derive(Clone, Copy, PartialEq, Eq)]
pub enum Most {
    One,
    Three,
}

impl Most {
    pub fn limit(self) -> u64
        ensures { result ≡ most_binders self }
    {
        match self {
            Most::One => 1,
            Most::Three => 3,
        }
    }
}

/// Whether the list has at most one binder, if only one is allowed. If the tree is no list, the
/// fault is found later.
pub fn has_few(most: Most, tree: &Tree) -> bool
    ensures { result ≡ has_few (most_binders most) (plain tree.now) }
{
    match (most, tree) {
        (Most::One, Tree::List(trees)) => is_up_to(trees, 1),
        _ => true,
    }
}

pub fn read_binders(
    alloc: Global,
    place: &Place<'_>,
    most: Most,
    tree: &Tree,
) -> Result<Binders, FormFault>
    ensures value { IfOk result (λ bs. binders_in_tree (most_binders most) (path_of place.now)
        (plain tree.now) ≡ got (binders_of bs)) }
    ensures fault { IfErr result (λ f. IsTrue (refuses f) → binders_in_tree (most_binders most)
        (path_of place.now) (plain tree.now) ≡ refused f) }
{
    match tree {
        Tree::List(trees) => {
            let binders = read_some(alloc, place, most, trees)?;
            Ok(binders)
        }
        _ => Err(place.form(alloc, Want::Binder)),
    }
}

fn read_some(
    alloc: Global,
    place: &Place<'_>,
    most: Most,
    trees: &Trees,
) -> Result<Binders, FormFault>
    ensures value { IfOk result (λ bs. some_binders (most_binders most) (path_of place.now)
        (plain_all trees.now) ≡ got (binders_of bs)) }
    ensures fault { IfErr result (λ f. IsTrue (refuses f) → some_binders (most_binders most)
        (path_of place.now) (plain_all trees.now) ≡ refused f) }
{
    if is_up_to(trees, 0) {
        return Err(place.form(alloc, Want::Binder));
    }
    if is_up_to(trees, most.limit()) {
        let binders = read_each(alloc, place, trees)?;
        Ok(binders)
    } else {
        Err(place.too_many(alloc, What::Binders, count(trees)?))
    }
}

fn read_each(alloc: Global, place: &Place<'_>, trees: &Trees) -> Result<Binders, FormFault>
    ensures value { IfOk result (λ bs. binders_in_trees (path_of place.now) 0 (plain_all trees.now)
        ≡ got (binders_of bs)) }
    ensures fault { IfErr result (λ f. IsTrue (refuses f) → binders_in_trees (path_of place.now) 0
        (plain_all trees.now) ≡ refused f) }
{
    let mut back = Binders::End;
    let mut number: u32 = 0;
    let mut left = trees;
    'binders: while let Trees::More(first, rest) = left {
        let binder = read_binder(alloc, &place.child(number), first)?;
        back = Binders::More(binder, Box::new(alloc, back)?);
        number = next_number(number)?;
        left = rest;
    }
    let binders = back.before(Binders::End);
    Ok(binders)
}

fn read_binder(alloc: Global, place: &Place<'_>, tree: &Tree) -> Result<Binder, FormFault>
    ensures value { IfOk result (λ b. binder_in_tree (path_of place.now) (plain tree.now) ≡ got b) }
    ensures fault { IfErr result (λ f. IsTrue (refuses f) → binder_in_tree (path_of place.now)
        (plain tree.now) ≡ refused f) }
{
    let Tree::List(Trees::More(name, rest)) = tree else {
        return Err(place.form(alloc, Want::Binder));
    };
    let Trees::More(model, rest) = &**rest else {
        return Err(place.form(alloc, Want::Binder));
    };
    let Trees::End = &**rest else {
        return Err(place.form(alloc, Want::Binder));
    };
    let name = read_name(alloc, &place.child(0), name)?;
    let model = read_name(alloc, &place.child(1), model)?;
    Ok(Binder { name, model })
}

pub fn read_order(alloc: Global, place: &Place<'_>, tree: &Tree) -> Result<Order, FormFault>
    ensures value { IfOk result (λ o. order_in_tree (path_of place.now) (plain tree.now) ≡ got o) }
    ensures fault { IfErr result (λ f. IsTrue (refuses f) → order_in_tree (path_of place.now)
        (plain tree.now) ≡ refused f) }
{
    match tree {
        Tree::Atom(word) => {
            if word.as_str() == "key" {
                Ok(Order::Key)
            } else {
                Err(place.form(alloc, Want::Order))
            }
        }
        Tree::Text(_) => Err(place.form(alloc, Want::Order)),
        Tree::List(trees) => {
            let order = read_sorting(alloc, place, trees)?;
            Ok(order)
        }
    }
}

fn read_sorting(alloc: Global, place: &Place<'_>, trees: &Trees) -> Result<Order, FormFault>
    ensures value { IfOk result (λ o. sorting_in_trees (path_of place.now) (plain_all trees.now)
        ≡ got o) }
    ensures fault { IfErr result (λ f. IsTrue (refuses f) → sorting_in_trees (path_of place.now)
        (plain_all trees.now) ≡ refused f) }
{
    let Trees::More(word, rest) = trees else {
        return Err(place.form(alloc, Want::Order));
    };
    let Trees::More(binder, rest) = &**rest else {
        return Err(place.form(alloc, Want::Order));
    };
    let Trees::More(field, rest) = &**rest else {
        return Err(place.form(alloc, Want::Order));
    };
    let Trees::End = &**rest else {
        return Err(place.form(alloc, Want::Order));
    };
    if is_word(word, b"up") {
        let (binder, field) = read_key(alloc, place, binder, field)?;
        Ok(Order::Up(binder, field))
    } else if is_word(word, b"down") {
        let (binder, field) = read_key(alloc, place, binder, field)?;
        Ok(Order::Down(binder, field))
    } else {
        Err(place.form(alloc, Want::Order))
    }
}

fn read_key(
    alloc: Global,
    place: &Place<'_>,
    binder: &Tree,
    field: &Tree,
) -> Result<(Txt, Txt), FormFault>
    ensures value { IfOk result (λ key. key_of_sort (path_of place.now) (plain binder.now)
        (plain field.now) ≡ got (sort_key key.0 key.1)) }
    ensures fault { IfErr result (λ f. IsTrue (refuses f)
        → key_of_sort (path_of place.now) (plain binder.now) (plain field.now) ≡ refused f) }
{
    let binder = read_name(alloc, &place.child(1), binder)?;
    let field = read_name(alloc, &place.child(2), field)?;
    Ok((binder, field))
}
