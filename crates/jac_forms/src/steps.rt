ghost use Rattle.std.specs.Prelude.{◌≡◌};
ghost use Rattle.jac_tree.specs.Mirror.{plain};
ghost use Rattle.jac_forms.specs.Statements.{single_of, step_around, step_of, step_of_word};

use jac_tree::Tree;

/// The kinds of statements without statements inside.
#[derive(Clone, Copy, PartialEq, Eq)]
pub enum Single {
    Put,
    Esc,
    Assign,
    Update,
    Delete,
    Missing,
    Redirect,
    Template,
}

/// The kind of a statement, by its head.
#[derive(Clone, Copy, PartialEq, Eq)]
pub enum Step {
    Single(Single),
    Let,
    If,
    For,
    Create,
}

pub fn step_of(head: &Tree) -> Option<Step>
    ensures { result ≡ step_of (plain head.now) }
{
    match head {
        Tree::Atom(word) => step_of_word(word.as_str()),
        Tree::Text(_) => None,
        Tree::List(_) => None,
    }
}

fn step_of_word(word: &str) -> Option<Step>
    ensures { result ≡ step_of_word word.now }
{
    match single_of(word) {
        Some(single) => Some(Step::Single(single)),
        None => step_around(word),
    }
}

fn single_of(word: &str) -> Option<Single>
    ensures { result ≡ single_of word.now }
{
    if word == "put" {
        Some(Single::Put)
    } else if word == "esc" {
        Some(Single::Esc)
    } else if word == "assign" {
        Some(Single::Assign)
    } else if word == "update" {
        Some(Single::Update)
    } else if word == "delete" {
        Some(Single::Delete)
    } else if word == "missing" {
        Some(Single::Missing)
    } else if word == "redirect" {
        Some(Single::Redirect)
    } else if word == "template" {
        Some(Single::Template)
    } else {
        None
    }
}

fn step_around(word: &str) -> Option<Step>
    ensures { result ≡ step_around word.now }
{
    if word == "let" {
        Some(Step::Let)
    } else if word == "if" {
        Some(Step::If)
    } else if word == "for" {
        Some(Step::For)
    } else if word == "create" {
        Some(Step::Create)
    } else {
        None
    }
}
