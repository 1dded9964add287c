ghost use Rattle.std.specs.Prelude.{◌≡◌, Some, None, if◌then◌else◌};
ghost use Rattle.tree_model.specs.Tree.{same_key};

use crate::keys::same;
use ivy_base::Key;

/// The directories whose entries an operation changed, at most two.
#[derive(Clone, Copy)]
pub struct Touched {
    /// The directory of the operation's first name. It is there where the operation did anything to names.
    pub first: Option<Key>,
    /// The directory that the name was moved to, where it is another one.
    pub second: Option<Key>,
}

impl Touched {
    // No directory.
    pub(crate) fn nothing() -> Touched
        ensures { result ≡ record { first = None; second = None } }
    {
        Touched {
            first: None,
            second: None,
        }
    }

    // One directory.
    pub(crate) fn only(dir: Key) -> Touched
        ensures { result ≡ record { first = Some dir; second = None } }
    {
        Touched {
            first: Some(dir),
            second: None,
        }
    }

    // Two directories, or one that is given twice.
    pub(crate) fn both(first: Key, second: Key) -> Touched
        ensures { result ≡ record { first = Some first; second = if same_key second first then None else Some second } }
    {
        Touched {
            first: Some(first),
            second: if same(&second, &first) {
                None
            } else {
                Some(second)
            },
        }
    }
}
