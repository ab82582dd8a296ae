// Who has the files open that one fid alone may have open.
ghost use Rattle.std.specs.Prelude.{◌≡◌, ◌∷◌, [], ℕ, List, Option, ◌&&◌, is_some, true};
ghost use Rattle.file_tree.specs.Tree.{is_exclusive};
ghost use Rattle.file_tree.specs.Calls.{node_of};
ghost use Rattle.agent_history.specs.Deeds.{Deed, OfFids, OfConnection, Opened, Clunked, Versioned, Hung, fid_of, holder_of};
ghost use Rattle.agent_history.specs.Conversations.{asking};
ghost use Rattle.agent_requests.specs.Sharing.{Holds};

use file_tree::Node;
use talks::Asking;

/// A connection and a fid of it.
pub type Holder = (u64, u32);

/// Who has each of the files open that one fid alone may have open.
#[derive(Clone, Copy, Debug, PartialEq, Eq)]
pub struct Holders {
    pub confirm: Option<Holder>,
    pub needkey: Option<Holder>,
    pub log: Option<Holder>,
}

impl Holders {
    /// None of them is open.
    pub fn new() -> Holders
        ensures { Holds [] result }
    {
        Holders {
            confirm: None,
            needkey: None,
            log: None,
        }
    }

    /// Whether the file is open, and one fid alone may have it open.
    pub fn has(&self, node: Node) -> bool
        ensures { (done : List Deed) → Holds done self.now
            → result ≡ (is_exclusive node && is_some (holder_of done node)) }
    {
        match node {
            Node::Confirm => self.confirm.is_some(),
            Node::Needkey => self.needkey.is_some(),
            Node::Log => self.log.is_some(),
            _ => false,
        }
    }

    /// Who has a file open that one fid alone may have open.
    pub fn holder(&self, node: Node) -> Option<Holder>
        ensures { (done : List Deed) → is_exclusive node ≡ true → Holds done self.now
            → result ≡ holder_of done node }
    {
        match node {
            Node::Confirm => self.confirm,
            Node::Needkey => self.needkey,
            Node::Log => self.log,
            _ => None,
        }
    }

    /// Which of the files by which a user is asked are open.
    pub fn asking(&self) -> Asking
        ensures { (done : List Deed) → Holds done self.now → result ≡ asking done }
    {
        Asking {
            confirm: self.confirm.is_some(),
            needkey: self.needkey.is_some(),
        }
    }

    /// A fid that names this file opens it.
    pub fn open(&mut self, node: Node, conn: u64, fid: u32)
        ensures { (done : List Deed) (mode : ℕ) → is_some (fid_of done conn fid) ≡ true
            → node_of (fid_of done conn fid) ≡ node → Holds done self.old
            → Holds (OfFids conn (Opened fid mode) ∷ done) self.new }
    {
        let holder = Some((conn, fid));
        match node {
            Node::Confirm => self.confirm = holder,
            Node::Needkey => self.needkey = holder,
            Node::Log => self.log = holder,
            _ => {}
        }
    }

    /// A fid is given up.
    pub fn clunk(&mut self, conn: u64, fid: u32)
        ensures { (done : List Deed) → Holds done self.old
            → Holds (OfFids conn (Clunked fid) ∷ done) self.new }
    {
        let stays = |holder: &Holder| !(holder.0 == conn && holder.1 == fid);
        self.confirm = self.confirm.filter(stays);
        self.needkey = self.needkey.filter(stays);
        self.log = self.log.filter(stays);
    }

    /// All fids of a connection are given up.
    pub fn leave(&mut self, conn: u64)
        ensures version { (done : List Deed) (msize : Option ℕ) → Holds done self.old
            → Holds (OfFids conn (Versioned msize) ∷ done) self.new }
        ensures hang { (done : List Deed) → Holds done self.old
            → Holds (OfConnection conn Hung ∷ done) self.new }
    {
        let stays = |holder: &Holder| holder.0 != conn;
        self.confirm = self.confirm.filter(stays);
        self.needkey = self.needkey.filter(stays);
        self.log = self.log.filter(stays);
    }
}
