//! What is supposed of the outside, for contracts alone.
ghost use Rattle.std.specs.Prelude.{ℕ, List, [], Option, None};

/// The contents of each file, and the input of each connection in the order in which the door gives
/// them. No code can read either, so a function over `O: Outside` is proved for all files and all
/// inputs.
pub trait Outside: Drop {
    ghost file: { List ℕ → Option (List ℕ) };

    ghost inputs: { List (List ℕ) };
}

/// The outside that `main` names: no files and no connections.
#[derive(Drop)]
pub struct Unknown;

impl Outside for Unknown {
    ghost file = { λ _. None };

    ghost inputs = { [] };
}
