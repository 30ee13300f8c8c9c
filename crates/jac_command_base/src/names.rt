ghost use Rattle.std.specs.Prelude.{◌≡◌};
ghost use Rattle.std.specs.Option.{option_copied};

use jac_value::Txt;

/// The name, if there is one, by reference.
pub fn named(name: &Option<Txt>) -> Option<&Txt>
    ensures { option_copied result ≡ name.now }
{
    match name {
        None => None,
        Some(name) => Some(name),
    }
}
