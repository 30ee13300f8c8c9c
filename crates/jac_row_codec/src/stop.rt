use std::alloc::AllocFailed;

/// Why a reader stopped.
#[derive(Clone, Copy)]
pub(crate) enum Stop {
    /// How many bytes are left after the longest beginning that can go on to a right spelling.
    Left(usize),
    Memory,
}

impl<T: Drop> From<AllocFailed<T>> for Stop {
    ghost use Rattle.std.specs.Prelude.{◌≡◌};
    ghost use Rattle.jac_row_codec.specs.declared.stop.Stop.TheVariants as stops;

    ghost from_gives = { λ _ e. e ≡ stops.Memory };

    fn from(_: AllocFailed<T>) -> Stop {
        Stop::Memory
    }
}
