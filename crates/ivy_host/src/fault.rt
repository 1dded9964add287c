ghost use Rattle.std.specs.Prelude.{◌≡◌, ◌↔◌};
ghost use Rattle.std.specs.IoError.{error_kind};

use ivy_io::OpenFault;
use std::io;
use std::io::ErrorKind;

/// What a failure of the host is to who opens something: running out of memory by itself, each other one
/// alike.
pub fn open_fault(error: &io::Error) -> OpenFault
    ensures { (result ≡ OpenFault.Memory) ↔ (error_kind error.now ≡ ErrorKind.OutOfMemory) }
{
    match error.kind() {
        ErrorKind::OutOfMemory => OpenFault::Memory,
        _ => OpenFault::Failed,
    }
}
