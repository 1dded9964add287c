//! Lines that are shown.

ghost use Rattle.std.specs.Prelude.{◌≡◌, ◌++◌, [], ◌∷◌, IfOk};
ghost use Rattle.std.specs.Fmt.{decimal};

use ivy_base::Memory;
use std::alloc::Global;

/// A line of a word with its blank, a name and a number. The error is: out of memory.
pub(crate) fn counted_line(
    alloc: Global,
    word: &[u8],
    name: &[u8],
    count: u64,
) -> Result<Vec<u8>, Memory>
    ensures { IfOk result (λ line. line.items ≡ word.now ++ name.now ++ 32 ∷ decimal count ++ 10 ∷ []) }
{
    let counted = format!(in alloc; " {count}\n")?;
    let mut line = Vec::new(alloc);
    line.extend_from_slice(word)?;
    line.extend_from_slice(name)?;
    line.extend_from_slice(counted.as_bytes())?;
    Ok(line)
}
