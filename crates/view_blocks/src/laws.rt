//! What holds of views and their blocks.

ghost use Rattle.view_blocks.specs.Laws.{OneViewForEachBlock, LegalViewsPass, FaultsAreUnique};

/// Laws and no code. A block is that of one view, and no view's block begins another's. A view that may be made is
/// made, and is read from its block, unless memory is short. Where a view can't be made or read, the fault is one.
pub fn views_have_blocks()
    ensures one { OneViewForEachBlock }
    ensures legal { LegalViewsPass }
    ensures faults { FaultsAreUnique }
{}
