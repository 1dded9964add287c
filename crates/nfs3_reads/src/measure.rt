//! How many bytes entries take, and how many they may take.

ghost use Rattle.std.specs.Prelude.{◌≡◌, ◌<◌, ◌+◌, ◌^◌, min};
ghost use Rattle.nfs_model.specs.Pages.{room_for_entries, longest_page};
ghost use Rattle.nfs3_reads.specs.Measures.{length_by};

/// The bytes of an entry's number, and of its cookie.
const NUMBER: usize = 8;

/// The bytes of a flag, and of a length.
const WORD: usize = 4;

/// The bytes of an entry's attributes with the flag before them, and of its file handle with its flag and length.
const ATTRIBUTES: usize = 88;

const HANDLE: usize = 52;

/// The most bytes that a page is given, whatever is asked for.
const MOST: u32 = 32_768;

/// The bytes of a page beside its entries: the directory's attributes (88), the verifier (8), and the end of the
/// entries with its flag (8).
pub const FRAME: usize = 104;

/// What is counted of an entry.
#[derive(Clone, Copy)]
pub enum Measure {
    /// Its number, its name and its cookie.
    Entry,
    /// The same with the flag before it: all of an entry of READDIR.
    Plain,
    /// The same with its attributes and its file handle: all of an entry of READDIRPLUS.
    Long,
}

/// How many bytes an entry of that name takes.
pub fn length_by(measure: Measure, name: &[u8]) -> usize
    ensures length { result ≡ length_by measure name.now }
    ensures bound { result < 2 ^ 63 + 256 }
{
    let count = name.len();
    let entry = NUMBER + (WORD + count + (4 - count % 4) % 4) + NUMBER;
    match measure {
        Measure::Entry => entry,
        Measure::Plain => WORD + entry,
        Measure::Long => WORD + entry + ATTRIBUTES + HANDLE,
    }
}

/// How many bytes a page may take, of which so many were asked for.
pub fn most_bytes(count: u32) -> usize
    ensures { result ≡ min count longest_page }
{
    count.min(MOST) as usize
}

/// How many bytes are left for the entries of a page.
pub fn room_for_entries(count: u32) -> usize
    ensures { result ≡ room_for_entries count }
{
    most_bytes(count).saturating_sub(FRAME)
}
