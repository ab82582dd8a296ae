// Requests on the files of the tree, which ask nobody.
ghost use Rattle.std.specs.Prelude.{◌≡◌, ◌≤◌, ◌<◌, ◌^◌, ◌+◌, ◌++◌, ◌∷◌, [], ℕ, List, Some, length, map, OnOk, OnErr, IfOk};
ghost use Rattle.nine.specs.declared.message.TBody.TheVariants as t;
ghost use Rattle.agent_history.specs.Requests.{piece};
ghost use Rattle.doors.specs.declared.fid.FileFid.{FileFid};
ghost use Rattle.doors.specs.declared.fid.Names.TheVariants.{File};
ghost use Rattle.doors.specs.declared.file.DoorFile.TheVariants.{Root, Who};
ghost use Rattle.doors.specs.Deeds.{Deed, Became};
ghost use Rattle.doors.specs.Fids.{named, opened, read_to};
ghost use Rattle.doors.specs.Requests.{walking};
ghost use Rattle.doors.specs.Tree.{content_of, lead_to, listed, qid_of, visited, who_text};
ghost use Rattle.doors.specs.Doors.{Keeps, Served, reply_under};

use crate::connection::Connection;
use crate::fid::{FileFid, Names};
use crate::file::DoorFile;
use nine::{QidList, put_open, put_read, put_stat, put_walk};
use std::alloc::Global;
use wire_base::{Bytes, NoMemory, Text};

// Follows the names as long as they are there. Gives the qids of the files that it came to, and where all of the names
// lead, if each was there.
fn walk_from(
    alloc: Global,
    file: DoorFile,
    names: &[Text],
) -> Result<(QidList, Option<DoorFile>), NoMemory>
    ensures visited { IfOk result (λ found. found.0 ≡ map qid_of (visited file names.now)) }
    ensures end { IfOk result (λ found. found.1 ≡ lead_to file names.now) }
    ensures few { IfOk result (λ found. length found.0 ≤ length names.now) }
{
    let mut qids = QidList::new(alloc);
    let mut at = file;
    for name in names {
        match at.step(name.as_slice()) {
            Some(next) => {
                qids.push(next.qid())?;
                at = next;
            }
            None => return Ok((qids, None)),
        }
    }
    Ok((qids, Some(at)))
}

// The bytes of a text from an offset on, at most so many.
fn piece(text: &[u8], offset: u64, most: u32) -> &[u8]
    ensures piece { result.now ≡ piece offset most text.now }
    ensures short { length result.now ≤ most }
{
    let offset = offset.min(text.len() as u64) as usize;
    let (_, rest) = text.split_at(offset);
    let most = rest.len().min(most as usize);
    rest.split_at(most).0
}

// What a read of the root gives: the record of its one file, whole, from 0.
fn listed(offset: u64, count: u32) -> &'static [u8]
    ensures listed { result.now ≡ listed offset count }
    ensures short { length result.now ≤ 76 }
    ensures from { offset + length result.now < 2 ^ 64 }
{
    let record = DoorFile::Who.record();
    if offset == 0 && record.len() <= count as usize {
        record
    } else {
        &[]
    }
}

// The text of the file that tells for whom it was attached.
fn who_text(alloc: Global, uname: &Text) -> Result<Bytes, NoMemory>
    ensures { IfOk result (λ text. text ≡ who_text uname.now) }
{
    let mut text = Bytes::from_slice(alloc, uname.as_slice())?;
    text.push(b'\n')?;
    Ok(text)
}

impl Connection {
    // The fid names the file to which a walk led, if it led to one.
    fn move_to(&mut self, newfid: u32, end: Option<DoorFile>, uname: Text) -> Result<(), NoMemory>
        ensures { OnOk result ((done : List Deed) (fid : ℕ) (from : FileFid) → from.uname ≡ uname
            → Keeps done self.old → Keeps (walking fid newfid from end done) self.new) }
    {
        let Some(file) = end else {
            return Ok(());
        };
        let names = Names::File(FileFid {
            file,
            uname,
            is_open: false,
            next: 0,
        });
        if self.fids.is_held(newfid) {
            self.fids.rename(newfid, names);
            Ok(())
        } else {
            self.fids.add(newfid, names)
        }
    }

    /// Walk: the new fid names the file to which the names lead, where all of them lead to one. A fid that names no file
    /// leads nowhere.
    #[tactic(auto, unfolding(crate::specs::Requests::after, crate::specs::Requests::reply_of))]
    pub fn walk(
        &mut self,
        tag: u16,
        fid: u32,
        newfid: u32,
        wname: &[Text],
        out: &mut Bytes,
    ) -> Result<(), NoMemory>
        requires { length wname.now ≤ 16 }
        ensures ok { OnOk result ((done : List Deed) → Keeps done self.old
            → Served done tag (t.Walk fid newfid wname.now) [] self.new out.old out.new) }
        ensures err { OnErr result (out.new ≡ out.old) }
    {
        let Some(Names::File(from)) = self.fids.named(fid) else {
            return put_walk(tag, &[], out);
        };
        let uname = from.uname.copy()?;
        let (qids, end) = walk_from(self.fids.allocator(), from.file, wname)?;
        self.move_to(newfid, end, uname)?;
        put_walk(tag, qids.as_slice(), out)
    }

    // The fid, which names this file, is open.
    fn open_fid(&mut self, fid: u32, file: DoorFile, uname: Text)
        ensures { (done : List Deed) (f : FileFid) → f.file ≡ file → f.uname ≡ uname
            → Keeps done self.old → Keeps (Became fid (opened f) ∷ done) self.new }
    {
        let names = Names::File(FileFid {
            file,
            uname,
            is_open: true,
            next: 0,
        });
        self.fids.rename(fid, names);
    }

    /// Open: the file is open. A fid that names no file is as before.
    #[tactic(auto, unfolding(crate::specs::Requests::after, crate::specs::Requests::reply_of))]
    pub fn open(&mut self, tag: u16, fid: u32, out: &mut Bytes) -> Result<(), NoMemory>
        ensures ok { (mode : ℕ) → OnOk result ((done : List Deed) → Keeps done self.old
            → Served done tag (t.Open fid mode) [] self.new out.old out.new) }
        ensures err { OnErr result (out.new ≡ out.old) }
    {
        let Some(Names::File(named)) = self.fids.named(fid) else {
            return put_open(tag, &DoorFile::Root.qid(), 0, out);
        };
        let file = named.file;
        let uname = named.uname.copy()?;
        self.open_fid(fid, file, uname);
        put_open(tag, &file.qid(), 0, out)
    }

    /// Stat: the record of what the fid names.
    #[tactic(auto, unfolding(crate::specs::Requests::after, crate::specs::Requests::reply_of))]
    pub fn stat(&self, tag: u16, fid: u32, out: &mut Bytes) -> Result<(), NoMemory>
        ensures ok { OnOk result ((done : List Deed) → Keeps done self.now
            → Served done tag (t.Stat fid) [] self.now out.old out.new) }
        ensures err { OnErr result (out.new ≡ out.old) }
    {
        let file = match self.fids.named(fid) {
            Some(Names::File(named)) => named.file,
            Some(Names::Conversation(_)) => DoorFile::Root,
            None => DoorFile::Root,
        };
        put_stat(tag, file.record(), out)
    }

    // The next read of the fid, which names the root for this user, may begin there.
    fn read_to(&mut self, fid: u32, next: u64, is_open: bool, uname: Text)
        ensures { (done : List Deed) (f : FileFid) → f.file ≡ Root → f.uname ≡ uname
            → f.is_open ≡ is_open → Keeps done self.old
            → Keeps (Became fid (read_to next f) ∷ done) self.new }
    {
        let names = Names::File(FileFid {
            file: DoorFile::Root,
            uname,
            is_open,
            next,
        });
        self.fids.rename(fid, names);
    }

    // Read of the root, at the state of the fid that names it.
    fn read_root(
        &mut self,
        tag: u16,
        fid: u32,
        offset: u64,
        count: u32,
        out: &mut Bytes,
    ) -> Result<(), NoMemory>
        ensures ok { OnOk result ((done : List Deed) (f : FileFid) → Keeps done self.old
            → named fid self.old.fids ≡ Some (File f) → f.file ≡ Root
            → Served done tag (t.Read fid offset count) [] self.new out.old out.new) }
        ensures err { OnErr result (out.new ≡ out.old) }
    {
        let Some(Names::File(named)) = self.fids.named(fid) else {
            return put_read(tag, &[], out);
        };
        let is_open = named.is_open;
        let uname = named.uname.copy()?;
        let content = listed(offset, self.room(count));
        self.read_to(fid, offset + content.len() as u64, is_open, uname);
        put_read(tag, content, out)
    }

    // Read of the file that tells for whom it was attached.
    fn read_who(
        &self,
        tag: u16,
        uname: &Text,
        offset: u64,
        count: u32,
        out: &mut Bytes,
    ) -> Result<(), NoMemory>
        ensures ok { OnOk result ((done : List Deed) (fid : ℕ) (f : FileFid) → Keeps done self.now
            → named fid self.now.fids ≡ Some (File f) → f.file ≡ Who → f.uname ≡ uname.now
            → Served done tag (t.Read fid offset count) [] self.now out.old out.new) }
        ensures err { OnErr result (out.new ≡ out.old) }
    {
        let text = who_text(self.fids.allocator(), uname)?;
        put_read(tag, piece(text.as_slice(), offset, self.room(count)), out)
    }

    /// Read of a file that the fid names.
    pub fn read_file(
        &mut self,
        tag: u16,
        fid: u32,
        offset: u64,
        count: u32,
        out: &mut Bytes,
    ) -> Result<(), NoMemory>
        ensures ok { OnOk result ((done : List Deed) (f : FileFid) → Keeps done self.old
            → named fid self.old.fids ≡ Some (File f)
            → Served done tag (t.Read fid offset count) [] self.new out.old out.new) }
        ensures err { OnErr result (out.new ≡ out.old) }
    {
        let Some(Names::File(named)) = self.fids.named(fid) else {
            return put_read(tag, &[], out);
        };
        match named.file {
            DoorFile::Root => self.read_root(tag, fid, offset, count, out),
            DoorFile::Who => self.read_who(tag, &named.uname, offset, count, out),
        }
    }
}
