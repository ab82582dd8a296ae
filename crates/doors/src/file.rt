// The files that are served.
ghost use Rattle.std.specs.Prelude.{◌≡◌, ◌≤◌, length};
ghost use Rattle.doors.specs.Tree.{is_directory, qid_of, record_of, step};

use nine::Qid;

/// A file of the tree: the root, or the file in it that tells for whom it was attached.
#[derive(Clone, Copy, Debug, PartialEq, Eq)]
pub enum DoorFile {
    Root,
    Who,
}

// The records of the files: size[2] type[2] dev[4] qid[13] mode[4] atime[4] mtime[4] length[8] name[s] uid[s] gid[s]
// muid[s], as stat(5) of the Plan 9 manual has them.

const ROOT_RECORD: [u8; 74] = [
    72, 0, 0, 0, 0, 0, 0, 0, 0x80, 0, 0, 0, 0, 0, 0, 0, 0, 0, 0, 0, 0, 0x6d, 0x01, 0, 0x80, 0, 0,
    0, 0, 0, 0, 0, 0, 0, 0, 0, 0, 0, 0, 0, 0, 1, 0, b'/', 8, 0, b'f', b'a', b'c', b't', b'o', b't',
    b'u', b'm', 8, 0, b'f', b'a', b'c', b't', b'o', b't', b'u', b'm', 8, 0, b'f', b'a', b'c', b't',
    b'o', b't', b'u', b'm',
];

const WHO_RECORD: [u8; 76] = [
    74, 0, 0, 0, 0, 0, 0, 0, 0, 0, 0, 0, 0, 1, 0, 0, 0, 0, 0, 0, 0, 0x24, 0x01, 0, 0, 0, 0, 0, 0,
    0, 0, 0, 0, 0, 0, 0, 0, 0, 0, 0, 0, 3, 0, b'w', b'h', b'o', 8, 0, b'f', b'a', b'c', b't', b'o',
    b't', b'u', b'm', 8, 0, b'f', b'a', b'c', b't', b'o', b't', b'u', b'm', 8, 0, b'f', b'a', b'c',
    b't', b'o', b't', b'u', b'm',
];

impl DoorFile {
    pub fn is_directory(self) -> bool
        ensures { result ≡ is_directory self }
    {
        match self {
            DoorFile::Root => true,
            DoorFile::Who => false,
        }
    }

    /// The file's qid.
    pub fn qid(self) -> Qid
        ensures { result ≡ qid_of self }
    {
        let (kind, path) = match self {
            DoorFile::Root => (0x80, 0),
            DoorFile::Who => (0, 1),
        };
        Qid {
            kind,
            vers: 0,
            path,
        }
    }

    /// The file's record, by which a stat tells of it: 74 or 76 bytes.
    #[tactic(auto, unfolding(file_tree::specs::Stats::stat_text, file_tree::specs::Stats::stat_fields))]
    pub fn record(self) -> &'static [u8]
        ensures record { result.now ≡ record_of self }
        ensures short { length result.now ≤ 76 }
    {
        match self {
            DoorFile::Root => &ROOT_RECORD,
            DoorFile::Who => &WHO_RECORD,
        }
    }

    /// Where one name leads: from the root `..` to itself, and `who` to the file. Under the file nothing is there.
    #[tactic(auto, unfolding(crate::specs::Tree::step))]
    pub fn step(self, name: &[u8]) -> Option<DoorFile>
        ensures { result ≡ step self name.now }
    {
        match self {
            DoorFile::Root => {
                if name == b"..".as_slice() {
                    Some(DoorFile::Root)
                } else if name == b"who".as_slice() {
                    Some(DoorFile::Who)
                } else {
                    None
                }
            }
            DoorFile::Who => None,
        }
    }
}
