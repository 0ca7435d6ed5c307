// Why a line was not answered whole.
use std::io;

// The line is no record, and then nothing was printed; or the output failed.
#[derive(Debug, Drop)]
pub(crate) enum Fault {
    NoRecord,
    Io(io::Error),
}

impl From<io::Error> for Fault {
    fn from(why: io::Error) -> Fault {
        Fault::Io(why)
    }
}
