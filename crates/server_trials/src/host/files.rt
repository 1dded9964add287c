//! Keepers over files.

use ivy_base::Bytes;
use ivy_host::{DirKeepers, FileKeeper};
use ivy_io::{Failed, KeepFault, Keeper, Keepers, OpenFault};
use std::alloc::Global;
use std::rt::Files;
use std::{fs, io};

/// The name of the keeper that is given.
const NAME: &str = "agent";

/// A folder that is gone when its keeper saves.
const FOLDER: &str = "gone";

/// The file of that keeper.
const FILE_BELOW: &str = "gone/agent";

/// Whether a keeper was given.
fn word_of_refusal<T>(outcome: &Result<T, OpenFault>) -> &'static str {
    match outcome {
        Ok(_) => "given",
        Err(OpenFault::Failed) => "failed",
        Err(OpenFault::Memory) => "no memory",
    }
}

/// Saves the text, and says how that ended.
fn save<K: Keeper>(alloc: Global, keeper: &mut K, text: &str) -> &'static str {
    let Ok(bytes) = Bytes::copy_of(alloc, text.as_bytes()) else {
        return "no memory";
    };
    match keeper.save(bytes) {
        Ok(()) => "saved",
        Err(Failed) => "failed",
    }
}

/// Whether a load gives the text, or what it gives in its place.
fn load<K: Keeper>(alloc: Global, keeper: &mut K, text: &str) -> &'static str {
    match keeper.load(alloc) {
        Ok(kept) => {
            if kept.as_slice() == text.as_bytes() {
                "what was saved"
            } else {
                "other bytes"
            }
        }
        Err(KeepFault::Nothing) => "nothing",
        Err(KeepFault::Failed) => "failed",
        Err(KeepFault::Memory) => "no memory",
    }
}

/// Takes away what an earlier run may have left.
fn clear<R: Files>(rt: &R) {
    let _ = fs::remove_file(rt, NAME);
    let _ = fs::remove_file(rt, FILE_BELOW);
    let _ = fs::remove_dir(rt, FOLDER);
}

/// Puts keepers over files to trial.
pub fn put_to_trial<R: Files + Print + Copy + Send>(rt: &R, alloc: Global) -> io::Result<()> {
    clear(rt);
    let mut keepers = DirKeepers::new(*rt);
    for name in ["", ".", "..", "a/b", "agent.new"] {
        let refused = word_of_refusal(&keepers.keeper(alloc, name.as_bytes()));
        println!(rt; "keeper '{name}': {refused}")?;
    }
    save_twice(rt, alloc, &mut keepers)?;
    save_where_nothing_is(rt, alloc, &mut keepers)?;
    clear(rt);
    Ok(())
}

/// A keeper that saves twice, and whose name isn't given again.
fn save_twice<R: Files + Print + Copy + Send>(
    rt: &R,
    alloc: Global,
    keepers: &mut DirKeepers<R>,
) -> io::Result<()> {
    let Ok(mut keeper) = keepers.keeper(alloc, NAME.as_bytes()) else {
        return println!(rt; "keeper '{NAME}': not given");
    };
    let at_first = load(alloc, &mut keeper, "");
    let first = save(alloc, &mut keeper, "the first");
    let first_kept = load(alloc, &mut keeper, "the first");
    let second = save(alloc, &mut keeper, "the second, which is longer");
    let second_kept = load(alloc, &mut keeper, "the second, which is longer");
    let again = word_of_refusal(&keepers.keeper(alloc, NAME.as_bytes()));
    let before = keepers.faults();
    keepers.give_back(NAME.as_bytes(), keeper);
    let faults = keepers.faults().wrapping_sub(before);
    println!(rt; "a new keeper's load: {at_first}")?;
    println!(rt; "a save: {first}; a load: {first_kept}")?;
    println!(rt; "a save: {second}; a load: {second_kept}")?;
    println!(rt; "keeper '{NAME}' again: {again}")?;
    println!(rt; "faults of one that comes back: {faults}")
}

/// A keeper whose folder is gone when it saves.
fn save_where_nothing_is<R: Files + Print + Copy + Send>(
    rt: &R,
    alloc: Global,
    keepers: &mut DirKeepers<R>,
) -> io::Result<()> {
    fs::create_dir(rt, FOLDER)?;
    let Ok(mut keeper) = FileKeeper::claim(*rt, alloc, FILE_BELOW) else {
        return println!(rt; "keeper '{FILE_BELOW}': not given");
    };
    clear(rt);
    let saved = save(alloc, &mut keeper, "lost");
    let kept = load(alloc, &mut keeper, "lost");
    let before = keepers.faults();
    keepers.give_back(NAME.as_bytes(), keeper);
    let faults = keepers.faults().wrapping_sub(before);
    println!(rt; "a save without a folder: {saved}; a load: {kept}")?;
    println!(rt; "faults of one that comes back: {faults}")
}
