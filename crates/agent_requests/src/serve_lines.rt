// Reads that wait for a line are told the first one.
ghost use Rattle.std.specs.Prelude.{◌≡◌, List, false, true};
ghost use Rattle.file_tree.specs.Tree.{is_exclusive};
ghost use Rattle.side_files.specs.Lines.{found};
ghost use Rattle.agent_history.specs.Deeds.{Deed, was_hung};
ghost use Rattle.agent_history.specs.Replies.{reader};
ghost use Rattle.agent_history.specs.SideFiles.{all_served, lines_in, serve_first, serve_reads, served};
ghost use Rattle.mailboxes.specs.Deliveries.{SamePlace, SameRoom, StillNone};
ghost use Rattle.agent_talks.specs.Logging.{keeping_of};
ghost use Rattle.agent_requests.specs.Sharing.{Shares};
ghost use Rattle.agent_requests.specs.Serving.{LineTold, Serves};

use crate::deliver::read_too_small;
use crate::shared::Shared;
use file_tree::Node;
use mailboxes::{Read, Reply, ToldLine};
use side_files::TooSmall;

impl Shared {
    /// The reads that wait for a line of confirm, of needkey and of the log are told the lines that are there, in this
    /// order. It takes no memory.
    pub(crate) fn serve_all(&mut self)
        ensures served { (done : List Deed) → Shares done self.old
            → Shares (all_served done) self.new }
        ensures ring { self.new.ring ≡ self.old.ring }
        ensures room { SameRoom self.old.mailboxes self.new.mailboxes }
        ensures place { SamePlace self.old.mailboxes self.new.mailboxes }
        ensures none { StillNone self.old.mailboxes self.new.mailboxes }
        ensures talks { keeping_of self.new.talks ≡ keeping_of self.old.talks }
    {
        self.serve(Node::Confirm);
        self.serve(Node::Needkey);
        self.serve(Node::Log);
    }

    // The reads of who has a file of lines open are told the lines that are there, in the order in which they came.
    fn serve(&mut self, node: Node)
        ensures served { (done : List Deed) → is_exclusive node ≡ true → Shares done self.old
            → Shares (served node done) self.new }
        ensures ring { self.new.ring ≡ self.old.ring }
        ensures room { SameRoom self.old.mailboxes self.new.mailboxes }
        ensures place { SamePlace self.old.mailboxes self.new.mailboxes }
        ensures none { StillNone self.old.mailboxes self.new.mailboxes }
        ensures talks { keeping_of self.new.talks ≡ keeping_of self.old.talks }
    {
        let Some((conn, fid)) = self.holders.holder(node) else {
            return;
        };
        let waits = self.mailboxes.count_waits(conn);
        self.serve_reads(waits, node, conn, fid);
    }

    // At most so many times the first read of a fid that waits is told the first line, as long as there are both.
    fn serve_reads(&mut self, most: usize, node: Node, conn: u64, fid: u32)
        ensures served { (done : List Deed) → was_hung done conn ≡ false → Shares done self.old
            → Shares (serve_reads most node conn fid done) self.new }
        ensures ring { self.new.ring ≡ self.old.ring }
        ensures room { SameRoom self.old.mailboxes self.new.mailboxes }
        ensures place { SamePlace self.old.mailboxes self.new.mailboxes }
        ensures none { StillNone self.old.mailboxes self.new.mailboxes }
        ensures talks { keeping_of self.new.talks ≡ keeping_of self.old.talks }
    {
        if most == 0 {
            return;
        }
        if self.serve_first(node, conn, fid) {
            self.serve_reads(most - 1, node, conn, fid);
        }
    }

    // The first read of a fid that waits is told what it finds. False: none waits, or there is no line.
    fn serve_first(&mut self, node: Node, conn: u64, fid: u32) -> bool
        ensures served { (done : List Deed) → was_hung done conn ≡ false → Shares done self.old
            → Serves result done (serve_first node conn (reader done conn fid) done) self.new }
        ensures ring { self.new.ring ≡ self.old.ring }
        ensures room { SameRoom self.old.mailboxes self.new.mailboxes }
        ensures place { SamePlace self.old.mailboxes self.new.mailboxes }
        ensures none { StillNone self.old.mailboxes self.new.mailboxes }
        ensures talks { keeping_of self.new.talks ≡ keeping_of self.old.talks }
    {
        let Some(read) = self.mailboxes.reader(conn, fid) else {
            return false;
        };
        let Some(reply) = self.tell_line(node, read) else {
            return false;
        };
        self.mailboxes.settle(conn, read.tag, reply);
        true
    }

    // What a read is told of a file of lines: the first line, or that it holds too little. None: there is no line.
    fn tell_line(&mut self, node: Node, read: Read) -> Option<Reply>
        ensures told { (done : List Deed) → Shares done self.old
            → LineTold node read.tag (found read.count (lines_in done node)) done self.new result }
        ensures ring { self.new.ring ≡ self.old.ring }
        ensures holders { self.new.holders ≡ self.old.holders }
        ensures mail { self.new.mailboxes ≡ self.old.mailboxes }
        ensures talks { keeping_of self.new.talks ≡ keeping_of self.old.talks }
    {
        match self.hand_out_line(node, u32::from(read.count)) {
            Ok(Some(line)) => Some(Reply::Line {
                tag: read.tag,
                line: ToldLine::new(line),
            }),
            Ok(None) => None,
            Err(TooSmall) => Some(read_too_small(read.tag)),
        }
    }
}
