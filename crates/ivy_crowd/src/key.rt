//! The participant's key.

ghost use Rattle.std.specs.Prelude.{IfOk};
ghost use Rattle.ivy_crowd.specs.Requests.{IsKey};

use hss_keys::Hss;
use ivy_base::Memory;
use lms_core::{Height, Set, Width};
use std::alloc::Global;

/// The identifier's last byte, and the seed's; all before them are zero.
const LAST: u8 = 1;

/// The key of the script's line `log a 1 1 w4h10`. The error is: out of memory.
pub(crate) fn key(alloc: Global) -> Result<Hss, Memory>
    ensures { IfOk result IsKey }
{
    let mut id = [0; 16];
    id[15] = LAST;
    let mut seed = [0; 32];
    seed[31] = LAST;
    let set = Set {
        w: Width::W4,
        h: Height::H10,
    };
    Hss::grow(alloc, &id, &seed, &[set])
}
