//! What follows from the definitions of the procedures of NFS version 3, whatever the tree: directories are read whole,
//! results are short, plans are few, and each call is answered by a reply of its procedure.
//!
//! Layer: laws and no code, above `nfs_model`. For the layers above: each function's contract is a law, stated in
//! `specs/Listings.antt`, `specs/PageEntries.antt`, `specs/Lengths.antt`, `specs/Replies.antt` and `specs/Plans.antt`; since
//! `nfs3_reads` and `nfs3_writes` give exactly what the definitions say, the laws are of what they give.
#![tactic(auto)]

ghost use Rattle.nfs_laws.specs.Listings.{PagesAreListing, PagesGoOn};
ghost use Rattle.nfs_laws.specs.PageEntries.{PlainPagesSay, PlusPagesSay, PagesAreGiven};
ghost use Rattle.nfs_laws.specs.Lengths.{PagesFit, AnswersFit, MountsFit, PlansFit, FinishesFit, RecordsMakeNames, RecordsMakeShortLinks};
ghost use Rattle.nfs_laws.specs.Plans.{PlansAreFew};
ghost use Rattle.nfs_laws.specs.Replies.{AnswersAreReplies, MountsAreReplies, PlansAreReplies, FinishesAreReplies, RecordsMakeTrees, SetsMakeTrees};

/// A law and no code: the pages of a directory, read with the cookies given from trees in which it has one and the same
/// listing, put together are `.`, `..` and the listing, for every room that has place for one entry; and each page but the
/// last brings an entry.
pub fn directories_are_read_whole()
    ensures listing { PagesAreListing }
    ensures goes_on { PagesGoOn }
{}

/// A law and no code: what a page says of each entry, and which calls a page answers.
///
/// A page has the directory's entries after its cookie, one after the other: `.` is the directory, `..` the directory that
/// names it or else itself, and the names follow by their bytes. Each entry has its name, its inode's number and its place
/// as the cookie, and in READDIRPLUS the inode's attributes and handle. A directory that may be read answers by a page where
/// the verifier was given and there is room for one entry.
pub fn pages_say_entries()
    ensures plain { PlainPagesSay }
    ensures plus { PlusPagesSay }
    ensures given { PagesAreGiven }
{}

/// A law and no code: a page takes no more than the room for it, and every result has at most 32,772 bytes, where numbers and
/// names are keys and links are short, as they are in each tree that records make.
pub fn results_are_short()
    ensures pages { PagesFit }
    ensures answers { AnswersFit }
    ensures mounts { MountsFit }
    ensures plans { PlansFit }
    ensures finishes { FinishesFit }
    ensures names { RecordsMakeNames }
    ensures links { RecordsMakeShortLinks }
{}

/// A law and no code: what a call is answered is a reply of its procedure, with each number and text within its bounds.
///
/// This holds of the reading procedures of NFS and of those of MOUNT; and of the changing ones where they are refused, where
/// they have nothing to change, and once their records stand. The trees are within the bounds that records keep to
/// (`TreeFits`), as each closed set's is.
pub fn answers_are_replies()
    ensures answers { AnswersAreReplies }
    ensures mounts { MountsAreReplies }
    ensures plans { PlansAreReplies }
    ensures finishes { FinishesAreReplies }
    ensures trees { RecordsMakeTrees }
    ensures sets { SetsMakeTrees }
{}

/// A law and no code: what a call plans are one to three records.
pub fn plans_are_few()
    ensures { PlansAreFew }
{}
