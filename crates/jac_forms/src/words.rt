ghost use Rattle.std.specs.Prelude.{◌≡◌};
ghost use Rattle.jac_tree.specs.Mirror.{plain};
ghost use Rattle.jac_forms.specs.Expressions.{asking_of, form_of, form_of_word, op_of, plain_form_of};

use jac_lang::Op;
use jac_tree::Tree;

/// The forms of an expression that is a list.
#[derive(Clone, Copy, PartialEq, Eq)]
pub enum Form {
    NoneOf,
    Get,
    Live,
    Two(Op),
    Not,
    Cat,
    Str,
    Pick,
    Count,
    Sum,
    AnyOf,
    First,
}

pub fn form_of(head: &Tree) -> Option<Form>
    ensures { result ≡ form_of (plain head.now) }
{
    match head {
        Tree::Atom(word) => form_of_word(word.as_str()),
        Tree::Text(_) => None,
        Tree::List(_) => None,
    }
}

fn form_of_word(word: &str) -> Option<Form>
    ensures { result ≡ form_of_word word.now }
{
    match op_of(word) {
        Some(op) => Some(Form::Two(op)),
        None => plain_form_of(word),
    }
}

fn op_of(word: &str) -> Option<Op>
    ensures { result ≡ op_of word.now }
{
    match word {
        "add" => Some(Op::Add),
        "sub" => Some(Op::Sub),
        "mul" => Some(Op::Mul),
        "eq" => Some(Op::Eq),
        "lt" => Some(Op::Lt),
        "and" => Some(Op::And),
        "or" => Some(Op::Or),
        _ => None,
    }
}

fn plain_form_of(word: &str) -> Option<Form>
    ensures { result ≡ plain_form_of word.now }
{
    match word {
        "none" => Some(Form::NoneOf),
        "get" => Some(Form::Get),
        "live" => Some(Form::Live),
        "not" => Some(Form::Not),
        "cat" => Some(Form::Cat),
        "str" => Some(Form::Str),
        "pick" => Some(Form::Pick),
        _ => asking_of(word),
    }
}

fn asking_of(word: &str) -> Option<Form>
    ensures { result ≡ asking_of word.now }
{
    match word {
        "count" => Some(Form::Count),
        "sum" => Some(Form::Sum),
        "some" => Some(Form::AnyOf),
        "first" => Some(Form::First),
        _ => None,
    }
}
