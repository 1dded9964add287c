//! What is the same in each result, in numbers of four bytes (RFC 1813).

/// The status of success (NFS3_OK and MNT3_OK).
pub const OK: u32 = 0;

/// The most bytes of a file handle (nfs_fh3).
pub const MOST_HANDLE: u32 = 64;

/// The flag in front of a file handle that is given (post_op_fh3).
pub const GIVEN: [u32; 1] = [1];

/// The two numbers of a device, which are 0 (section 2.5).
pub const NO_DEVICE: [u32; 2] = [0, 0];

/// How safely the bytes of a WRITE were stored (stable_how), FILE_SYNC, and the verifier of what was written
/// (writeverf3), `IVYVERF1`.
pub const STORED: [u32; 3] = [2, 0x4956_5956, 0x4552_4631];

/// The verifier alone.
pub const WRITE_VERIFIER: [u32; 2] = [0x4956_5956, 0x4552_4631];

/// FSSTAT (section 3.3.18): 2^40 bytes in all, free, and free for the caller, and as often 2^32 files, each in two words,
/// and invarsec.
pub const SPACE: [u32; 13] = [256, 0, 256, 0, 256, 0, 1, 0, 1, 0, 1, 0, 0];

/// FSINFO (section 3.3.19): rtmax, rtpref, rtmult, wtmax, wtpref, wtmult and dtpref, the bytes of the longest file
/// in two words, the grain of times in two words, a nanosecond, and the properties FSF_LINK, FSF_SYMLINK,
/// FSF_HOMOGENEOUS and FSF_CANSETTIME.
pub const LIMITS: [u32; 12] = [
    8192, 8192, 512, 8192, 8192, 512, 8192, 0, 16_777_216, 0, 1, 27,
];

/// PATHCONF (section 3.3.20): linkmax, name_max, no_trunc, chown_restricted, case_insensitive and
/// case_preserving.
pub const PATHS: [u32; 6] = [1000, 255, 1, 1, 0, 1];

/// The flavours of MNT (section 5.2.1): one, AUTH_SYS.
pub const FLAVOURS: [u32; 2] = [1, 1];

/// The status of MNT for a path that isn't there (MNT3ERR_NOENT; section 5.1.5).
pub const NO_SUCH_PATH: u32 = 2;

/// DUMP (section 5.2.2): no entry.
pub const NO_MOUNTS: [u32; 1] = [0];

/// EXPORT (section 5.2.5): the one directory `/` for everybody.
pub const EXPORTS: [u32; 5] = [1, 1, 0x2f00_0000, 0, 0];
