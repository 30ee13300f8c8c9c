//! Laws on what connections bring.
ghost use Rattle.std.specs.Prelude.{List, IsTrue};
ghost use Rattle.jac_host.specs.Events.{Event};
ghost use Rattle.jac_host.specs.Gave.{bytes_given};
ghost use Rattle.jac_host.specs.Links.{brings, ends_for_good};

/// A law: if the input of a connection ends for good, some input agrees with each of its reads: the
/// bytes that the reads gave.
pub fn some_input_agrees()
    ensures { (events : List Event) → IsTrue (ends_for_good events)
        → IsTrue (brings (bytes_given events) events) }
{}
