//! The checks on a name in a call.

ghost use Rattle.std.specs.Prelude.{◌≡◌, ◌||◌, ◌==◌, [], ◌∷◌};
ghost use Rattle.std.specs.List.{list_any};
ghost use Rattle.nfs_model.specs.Checks.{first_failure, too_long_name, invalid_name, is_dot, is_dot_dot};

use nfs_model::NfsStatus;

/// The most bytes of a name.
const MOST_NAME: usize = 255;

/// The first check on a name that fails: above 255 bytes it is too long, and empty, or with a slash or a zero byte, it
/// is invalid.
pub fn name_fault(name: &[u8]) -> Option<NfsStatus>
    ensures { result ≡ first_failure (too_long_name name.now ∷ invalid_name name.now ∷ []) }
{
    if name.len() > MOST_NAME {
        return Some(NfsStatus::NameTooLong);
    }
    if name.is_empty() || has_forbidden(name) {
        return Some(NfsStatus::Inval);
    }
    None
}

/// Whether a byte stands in the name that may not: a slash or a zero byte.
fn has_forbidden(name: &[u8]) -> bool
    ensures { result ≡ list_any (λ b. b == 47 || b == 0) name.now }
{
    name.iter().any(|byte| *byte == b'/' || *byte == 0)
}

/// Whether the name is that of the directory itself.
pub fn is_dot(name: &[u8]) -> bool
    ensures { result ≡ is_dot name.now }
{
    name == b".".as_slice()
}

/// Whether the name is that of the directory above.
pub fn is_dot_dot(name: &[u8]) -> bool
    ensures { result ≡ is_dot_dot name.now }
{
    name == b"..".as_slice()
}
