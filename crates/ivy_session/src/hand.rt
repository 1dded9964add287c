//! Blocks that are available without asking.

ghost use Rattle.std.specs.Prelude.{◌≤◌, OnOk};
ghost use Rattle.view_refresh.specs.States.{refresh_left};
ghost use Rattle.ivy_session.specs.Taking.{TakesOne, TakesHand};

use block_cache::BlockCache;
use dht_ids::Judge;
use ivy_base::Memory;
use view_refresh::ViewRefresh;

/// Gives the refresh what it wants of what is available, as long as it wants a block that is: from what is pending, or else
/// from the cache. The error is: out of memory; the refresh isn't used after it.
pub fn take_all<J: Judge>(
    refresh: &mut ViewRefresh<J>,
    cache: &mut BlockCache,
) -> Result<(), Memory>
    ensures taken { TakesHand J.judges refresh.old refresh.new cache.old cache.new result }
    ensures left { OnOk result (refresh_left refresh.new ≤ refresh_left refresh.old) }
{
    'blocks: while take_one(refresh, cache)? {}
    Ok(())
}

/// Gives the refresh the block that it wants, where it is available, and says whether it is. The error is: out of
/// memory.
fn take_one<J: Judge>(refresh: &mut ViewRefresh<J>, cache: &mut BlockCache) -> Result<bool, Memory>
    ensures { TakesOne J.judges refresh.old refresh.new cache.old cache.new result }
{
    if refresh.take_pending()? {
        return Ok(true);
    }
    let Some(key) = refresh.wanted() else {
        return Ok(false);
    };
    let Some(bytes) = cache.peek(&key) else {
        return Ok(false);
    };
    refresh.give(bytes)?;
    let _block = cache.find(&key);
    Ok(true)
}
