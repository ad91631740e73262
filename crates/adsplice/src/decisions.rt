//! What `vod` decides by.
ghost use Rattle.std.specs.Prelude.{◌≡◌};
ghost use Rattle.std.specs.IoError.{error_kind};
ghost use Rattle.adsplice.specs.Decisions.{fault_of_program_file, bytes_of_program_file};

use std::io;
use std::io::ErrorKind;

/// Why a decision file isn't read.
#[derive(Clone, Copy, Debug, PartialEq, Eq)]
pub enum DecisionsFault {
    CannotRead,
    OutOfMemory,
}

// A kind of error as a fault.
fn fault_of_program_file(error: &io::Error) -> DecisionsFault
    ensures { result ≡ fault_of_program_file (error_kind error.now) }
{
    match error.kind() {
        ErrorKind::OutOfMemory => DecisionsFault::OutOfMemory,
        _ => DecisionsFault::CannotRead,
    }
}

/// The bytes of the decision file, if the program's words name one: `file` is what reading it gave. Any fault but
/// `OutOfMemory` is `CannotRead`.
pub fn bytes_of_program_file(
    file: Option<io::Result<Vec<u8>>>,
) -> Result<Option<Vec<u8>>, DecisionsFault>
    ensures { result ≡ bytes_of_program_file file }
{
    match file {
        None => Ok(None),
        Some(Ok(bytes)) => Ok(Some(bytes)),
        Some(Err(error)) => Err(fault_of_program_file(&error)),
    }
}
