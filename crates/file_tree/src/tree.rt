// The fixed tree of files that an agent serves, and what a fid is.
ghost use Rattle.std.specs.Prelude.{◌≡◌, ◌≤◌, find, bytes_eq, length};
ghost use Rattle.file_tree.specs.Tree.{file, files_in, is_directory, is_exclusive, parent, qid_of, step, up};

use nine::Qid;

/// A file of the tree: the root, the directory `factotum` in it, and the six files there.
#[derive(Clone, Copy, Debug, PartialEq, Eq)]
pub enum Node {
    Root,
    Factotum,
    Rpc,
    Ctl,
    Confirm,
    Needkey,
    Proto,
    Log,
}

/// What a fid names, and the mode in which it is open there: none while it isn't open.
#[derive(Clone, Copy, Debug, PartialEq, Eq)]
pub struct FidState {
    pub node: Node,
    pub mode: Option<u8>,
}

const IN_ROOT: [Node; 1] = [Node::Factotum];

const IN_FACTOTUM: [Node; 6] = [
    Node::Rpc,
    Node::Ctl,
    Node::Confirm,
    Node::Needkey,
    Node::Proto,
    Node::Log,
];

impl Node {
    /// The name of the file in its directory; the root's is `/`.
    pub fn name(self) -> &'static [u8]
        ensures name { result.now ≡ (file self).name }
        ensures short { length result.now ≤ 8 }
    {
        match self {
            Node::Root => b"/",
            Node::Factotum => b"factotum",
            Node::Rpc => b"rpc",
            Node::Ctl => b"ctl",
            Node::Confirm => b"confirm",
            Node::Needkey => b"needkey",
            Node::Proto => b"proto",
            Node::Log => b"log",
        }
    }

    /// The file's qid.
    pub fn qid(self) -> Qid
        ensures { result ≡ qid_of self }
    {
        let (kind, path) = match self {
            Node::Root => (0x80, 0),
            Node::Factotum => (0x80, 1),
            Node::Rpc => (0, 2),
            Node::Ctl => (0, 3),
            Node::Confirm => (0x20, 4),
            Node::Needkey => (0x20, 5),
            Node::Proto => (0, 6),
            Node::Log => (0x20, 7),
        };
        Qid {
            kind,
            vers: 0,
            path,
        }
    }

    /// The file's mode, as stat(5) of the Plan 9 manual has it: its type and who may do what.
    pub fn mode(self) -> u32
        ensures { result ≡ (file self).mode }
    {
        match self {
            Node::Root | Node::Factotum => 0x8000_016d,
            Node::Rpc => 0x1b6,
            Node::Ctl => 0x180,
            Node::Proto => 0x124,
            Node::Confirm | Node::Needkey | Node::Log => 0x2000_0180,
        }
    }

    /// Whether the file may be opened for writing. Each may be opened for reading.
    pub fn is_written(self) -> bool
        ensures { result ≡ (file self).written }
    {
        matches!(self, Node::Rpc | Node::Ctl | Node::Confirm | Node::Needkey)
    }

    pub fn is_directory(self) -> bool
        ensures { result ≡ is_directory self }
    {
        matches!(self, Node::Root | Node::Factotum)
    }

    /// Whether the file is open by one fid at a time.
    pub fn is_exclusive(self) -> bool
        ensures { result ≡ is_exclusive self }
    {
        matches!(self, Node::Confirm | Node::Needkey | Node::Log)
    }

    /// The files of a directory, in order; a file has none.
    pub fn files(self) -> &'static [Node]
        ensures { result.now ≡ files_in self }
    {
        match self {
            Node::Root => &IN_ROOT,
            Node::Factotum => &IN_FACTOTUM,
            _ => &[],
        }
    }

    // The directory in which the file stands.
    fn parent(self) -> Node
        ensures { result ≡ parent self }
    {
        match self {
            Node::Root | Node::Factotum => Node::Root,
            _ => Node::Factotum,
        }
    }

    fn up(self) -> Option<Node>
        ensures { result ≡ up self }
    {
        if self.is_directory() {
            Some(self.parent())
        } else {
            None
        }
    }

    // The file of that name in the directory.
    fn file_named(self, name: &[u8]) -> Option<Node>
        ensures { result ≡ find (λ child. bytes_eq name.now (file child).name) (files_in self) }
    {
        for child in self.files() {
            if name == child.name() {
                return Some(*child);
            }
        }
        None
    }

    /// Where one name leads: `..` up, in the root to the root; any other to the file of that name in the directory.
    /// Under a file nothing is there.
    #[tactic(auto, unfolding(crate::specs::Tree::step))]
    pub fn step(self, name: &[u8]) -> Option<Node>
        ensures { result ≡ step self name.now }
    {
        if name == b"..".as_slice() {
            self.up()
        } else {
            self.file_named(name)
        }
    }
}
