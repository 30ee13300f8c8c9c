use jac_value::{Bytes, Txt};

/// What a line describes.
#[derive(Drop)]
pub enum Event {
    /// A request without a connection. The viewer is the number of a record, as the line has it.
    Ask {
        viewer: Option<u128>,
        method: Txt,
        path: Txt,
        query: Bytes,
        body: Bytes,
    },
    /// A connection begins.
    Begin {
        conn: u32,
    },
    /// Bytes arrive on a connection.
    Piece {
        conn: u32,
        bytes: Bytes,
    },
    /// A connection ends.
    Finish {
        conn: u32,
    },
}

/// Why a line can't be read.
#[derive(Clone, Copy, PartialEq, Eq)]
pub enum LineFault {
    /// The line has none of the forms.
    BadLine,
    /// Out of memory.
    Memory,
}
