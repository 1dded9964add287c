//! What a turn goes on from.

ghost use Rattle.std.specs.Prelude.{◌≡◌, ◌&&◌, [], Some, None, IfOk, is_some, option_map, if◌then◌else◌};
ghost use Rattle.agent_model.specs.Standing.{dominates};
ghost use Rattle.fs_tree.specs.Bases.{basis_of};
ghost use Rattle.replay_engine.specs.Engines.{holding};
ghost use Rattle.version_vectors.specs.Vectors.{IsVector};
ghost use Rattle.ivy_agent.specs.Grounds.{IsGround, taken_basis};

use fs_tree::Basis;
use ivy_base::{Key, Memory};
use replay_engine::Engine;
use std::alloc::Global;
use version_vectors::Vector;

/// A basis with nothing above it.
#[derive(Drop)]
pub struct Ground {
    /// The basis, and no records.
    pub engine: Engine,
    /// The basis's front.
    pub front: Vector,
}

/// The loaded basis, where a snapshot is still to be loaded and the floor knows all that the basis covers. The error is: out
/// of memory.
pub fn ground_of(
    alloc: Global,
    to_load: Option<Key>,
    floor: &Vector,
    loaded: Option<Basis>,
) -> Result<Option<Ground>, Memory>
    ensures { IfOk result (IsGround (taken_basis to_load floor.now (option_map basis_of loaded))) }
{
    match loaded {
        Some(basis) => over_basis(alloc, to_load, floor, basis),
        None => Ok(None),
    }
}

/// That basis, where a snapshot is still to be loaded and the floor knows all that the basis covers. The error is: out of
/// memory.
fn over_basis(
    alloc: Global,
    to_load: Option<Key>,
    floor: &Vector,
    basis: Basis,
) -> Result<Option<Ground>, Memory>
    ensures { IfOk result (IsGround (if is_some to_load && dominates floor.now basis.front then Some (basis_of basis) else None)) }
{
    if !is_taken(to_load, floor, &basis.front) {
        return Ok(None);
    }
    match ground_over(alloc, basis) {
        Ok(ground) => Ok(Some(ground)),
        Err(Memory) => Err(Memory),
    }
}

/// That basis with nothing above it. The error is: out of memory.
fn ground_over(alloc: Global, basis: Basis) -> Result<Ground, Memory>
    ensures engine { IfOk result (λ g. holding g.engine ≡ record { basis = basis_of basis; held = [] }) }
    ensures front { IfOk result (λ g. g.front ≡ basis.front) }
    ensures fits { IsVector basis.front }
{
    // That it is a vector.
    let _ = basis.front.len();
    let engine = Engine::over(alloc, basis)?;
    match engine.basis_front().copy(alloc) {
        Ok(front) => Ok(Ground { engine, front }),
        Err(Memory) => Err(Memory),
    }
}

/// Whether the basis of that front is gone on from.
fn is_taken(to_load: Option<Key>, floor: &Vector, front: &Vector) -> bool
    ensures { result ≡ (is_some to_load && dominates floor.now front.now) }
{
    to_load.is_some() && is_within(floor, front)
}

/// Whether the floor knows all that the front does.
fn is_within(floor: &Vector, front: &Vector) -> bool
    ensures { result ≡ dominates floor.now front.now }
{
    // That it is a vector, so that each log has one entry.
    let _ = front.len();
    floor.dominates(front)
}
