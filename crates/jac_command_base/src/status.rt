ghost use Rattle.std.specs.Prelude.{◌≡◌};
ghost use Rattle.jac_command_base.specs.Status.{status_number};

/// The result of a run.
#[derive(Clone, Copy, PartialEq, Eq)]
pub enum Status {
    /// The command did its work, and its input was read to the end.
    Done,
    /// The words give no command.
    Usage,
    /// The application's file spells no application.
    AppRefused,
    /// A line of the sessions or events has no form, or names a connection in the wrong state. The
    /// events before it were served.
    LineRefused,
    /// A file couldn't be read.
    ReadFault,
    /// A write failed.
    WriteFault,
    /// The store failed when it was attached or read.
    StoreFault,
    Memory,
    /// The door failed: it listens at no port, gave no link, or took none back.
    DoorFault,
    /// The stored schema isn't that of the application.
    OtherStore,
    /// A file holds more bytes than its limit.
    TooLong,
    /// The second application doesn't extend the first.
    UpgradeRefused,
}

impl Status {
    /// The exit status of the program.
    pub fn number(self) -> u8
        ensures { result ≡ status_number self }
    {
        match self {
            Status::Done => 0,
            Status::Usage => 1,
            Status::AppRefused => 2,
            Status::LineRefused => 3,
            Status::ReadFault => 4,
            Status::WriteFault => 5,
            Status::StoreFault => 6,
            Status::Memory => 7,
            Status::DoorFault => 8,
            Status::OtherStore => 9,
            Status::TooLong => 10,
            Status::UpgradeRefused => 11,
        }
    }
}
