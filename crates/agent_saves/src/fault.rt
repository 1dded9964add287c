//! What the readers of a view and of a key refuse, as a block's reader says it.

ghost use Rattle.std.specs.Prelude.{◌≡◌};
ghost use Rattle.agent_saves.specs.Refusals.{of_load, of_view};

use block_parts::BlockFault;
use dht_ids::LoadFault;
use view_blocks::ViewFault;

/// Bytes that aren't a view's are malformed, whichever of its rules they break.
pub fn fault_of_view(fault: ViewFault) -> BlockFault
    ensures { result ≡ of_view fault }
{
    match fault {
        ViewFault::Memory => BlockFault::Memory,
        _ => BlockFault::Malformed,
    }
}

/// Bytes that aren't a key's are malformed.
pub fn fault_of_load(fault: LoadFault) -> BlockFault
    ensures { result ≡ of_load fault }
{
    match fault {
        LoadFault::Malformed => BlockFault::Malformed,
        LoadFault::Memory => BlockFault::Memory,
    }
}
