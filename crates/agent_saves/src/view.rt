//! The view that was entered.

ghost use Rattle.std.specs.Prelude.{◌≡◌, IfOk, IfErr};
ghost use Rattle.wire_model.specs.OneReading.{IsFront};
ghost use Rattle.block_parts.specs.Parts.{IsOptional};
ghost use Rattle.agent_model.specs.SavedBytes.{view_bytes};
ghost use Rattle.agent_saves.specs.Parts.{IsLegal, view_part};
ghost use Rattle.agent_saves.specs.Refusals.{Refuses, RefusesFront};

use crate::fault::fault_of_view;
use block_parts::BlockFault;
use std::alloc::Global;
use view_blocks::View;
use xdr_codec::XdrRead;

/// The view, after the length of its block.
pub fn read_view(alloc: Global, reader: &mut XdrRead) -> Result<Option<View>, BlockFault>
    ensures ok { IfOk result (λ view. IsFront (IsOptional IsLegal) view_part reader.old view reader.new) }
    ensures err { IfErr result (RefusesFront (IsOptional IsLegal) view_part reader.old) }
{
    let block = reader.opaque(u32::MAX)?;
    let view = view_of(alloc, block)?;
    Ok(view)
}

/// The view that has this block, or none where there are no bytes.
fn view_of(alloc: Global, block: &[u8]) -> Result<Option<View>, BlockFault>
    ensures legal { IfOk result (IsOptional IsLegal) }
    ensures bytes { IfOk result (λ view. block.now ≡ view_bytes view) }
    ensures err { IfErr result (Refuses (IsOptional IsLegal) view_bytes block.now) }
{
    if block.is_empty() {
        return Ok(None);
    }
    match View::read(alloc, block) {
        Ok(view) => Ok(Some(view)),
        Err(fault) => Err(fault_of_view(fault)),
    }
}
