// Questions that are asked, read and replied to.
ghost use Rattle.std.specs.Prelude.{◌≡◌, ◌≤◌};
ghost use Rattle.std.specs.Vec.{vec_len, vec_capacity};
ghost use Rattle.std.specs.VecDeque.{deque_len, deque_capacity};
ghost use Rattle.side_files.specs.Askers.{asker_in, without_asked, without_conv, without_tag};

use crate::fault::{PromptFault, TooSmall, UnknownTag};
use crate::line::{PromptKind, build_line, is_over};
use crate::prompt::{Asker, Prompt};
use std::alloc::Global;
use std::collections::VecDeque;
use std::marker::Model;
use wire_base::{Bytes, NoMemory};

/// The questions that an agent asks people by one file. Each is asked by a conversation, read once, and replied to once.
/// There is always room to note that a question was read, so that reading takes memory for what is read alone.
#[derive(Drop)]
pub struct Prompts {
    kind: PromptKind,
    asked: u64,
    unread: VecDeque<Prompt>,
    opened: Vec<Asker>,
    reserved: Option<Bytes>,
}

impl Model for Prompts {
    ghost use Rattle.std.specs.Prelude.{◌+◌, ◌≤◌};
    ghost use Rattle.std.specs.Vec.{vec_len, vec_capacity};
    ghost use Rattle.std.specs.VecDeque.{deque_len, deque_capacity};
    ghost use Rattle.side_files.specs.Questions.{Questions};
    ghost use Rattle.side_files.specs.Kept.{places};

    ghost Value = { Questions };

    ghost view = { λ p. record {
      kind = p.kind;
      asked = p.asked;
      unread = p.unread.items;
      opened = p.opened.items;
      reserved = p.reserved;
    } };

    ghost invariant = { λ p. (vec_len p.opened + deque_len p.unread + places p.reserved
        ≤ vec_capacity p.opened) × (deque_len p.unread + places p.reserved
        ≤ deque_capacity p.unread) };
}

impl Prompts {
    ghost use Rattle.std.specs.Prelude.{◌≡◌, ◌+◌, ◌-◌, ◌^◌, ◌<◌, ◌++◌, ◌&&◌, nat_le, not, true, None, Some, slice_get, is_some, IfErr, IfOk, OnOk, OnErr};
    ghost use Rattle.side_files.specs.Lines.{Hands, Tells, bytes_of, found, if_handed, if_read};
    ghost use Rattle.side_files.specs.Questions.{no_questions, unread_lines, with_line, next_line, asked_by, read, asker_of, first_conv, replied, reserved_line, standing, withdrawn};

    /// No questions. It takes no memory.
    pub fn new(alloc: Global, kind: PromptKind) -> Prompts
        ensures { result ≡ no_questions kind }
    {
        Prompts {
            kind,
            asked: 0,
            unread: VecDeque::new(alloc),
            opened: Vec::new(alloc),
            reserved: None,
        }
    }

    /// Whether as many questions were asked as have tags.
    pub fn is_spent(&self) -> bool
        ensures { result ≡ nat_le (2 ^ 64 - 1) self.now.asked }
    {
        self.asked == u64::MAX
    }

    /// Whether the next question is made, so that it can be asked.
    pub fn is_ready(&self) -> bool
        ensures ready { result ≡ (is_some self.now.reserved && not (nat_le (2 ^ 64 - 1) self.now.asked)) }
    {
        self.reserved.is_some() && !self.is_spent()
    }

    /// The conversation that waits for the reply to the question of a tag, where one does.
    pub fn asker(&self, tag: u64) -> Option<u64>
        ensures { result ≡ asker_of tag self.now }
    {
        find_asker(&self.opened, tag)
    }

    /// Makes room for the next question, and its line about this text. So it can be asked without memory.
    pub fn reserve(&mut self, about: &[u8]) -> Result<(), NoMemory>
        requires { self.old.asked < 2 ^ 64 - 1 }
        ensures ok { OnOk result (self.new ≡ with_line about.now self.old) }
        ensures err { OnErr result (self.new ≡ self.old) }
    {
        let line = build_line(*self.unread.allocator(), self.kind, self.asked + 1, about)?;
        self.unread.reserve(1)?;
        self.opened.reserve(self.unread.len() + 1)?;
        self.reserved = Some(line);
        Ok(())
    }

    /// Asks the question whose line was made. It takes no memory. The answer is the question's tag.
    pub fn ask_reserved(&mut self, conv: u64) -> u64
        requires few { self.old.asked < 2 ^ 64 - 1 }
        requires room { is_some self.old.reserved ≡ true }
        ensures tag { result ≡ self.old.asked + 1 }
        ensures asked { self.new ≡ asked_by conv (reserved_line self.old.reserved) self.old }
    {
        let Some(line) = self.reserved.take() else {
            unreachable!()
        };
        self.asked += 1;
        let tag = self.asked;
        self.unread.push_back_reserved(Prompt { tag, conv, line });
        tag
    }

    /// Asks a question of a conversation about this text. The answer is its tag.
    pub fn ask(&mut self, conv: u64, about: &[u8]) -> Result<u64, NoMemory>
        requires { self.old.asked < 2 ^ 64 - 1 }
        ensures tag { IfOk result (λ tag. tag ≡ self.old.asked + 1) }
        ensures ok { OnOk result (self.new
            ≡ asked_by conv (next_line self.old about.now) self.old) }
        ensures err { OnErr result (self.new ≡ self.old) }
    {
        self.reserve(about)?;
        Ok(self.ask_reserved(conv))
    }

    /// Hands out the line of the first question that nobody has read, where it has at most so many bytes: it is appended,
    /// and the question waits for its reply. False: there is none.
    pub fn read_one(&mut self, count: u32, out: &mut Bytes) -> Result<bool, PromptFault>
        ensures answer { Tells (found count (unread_lines self.old)) result }
        ensures out { out.new
            ≡ if_read result (out.old ++ bytes_of (found count (unread_lines self.old))) out.old }
        ensures questions { self.new ≡ if_read result (read self.old) self.old }
    {
        let Some(prompt) = self.unread.front() else {
            return Ok(false);
        };
        if is_over(&prompt.line, count) {
            return Err(PromptFault::TooSmall);
        }
        out.append(prompt.line.as_slice())?;
        self.open_first();
        Ok(true)
    }

    /// Hands out that line itself. None: there is none. It takes no memory.
    pub fn hand_out(&mut self, count: u32) -> Result<Option<Bytes>, TooSmall>
        ensures answer { Hands (found count (unread_lines self.old)) result }
        ensures questions { self.new ≡ if_handed result (read self.old) self.old }
    {
        let Some(prompt) = self.unread.front() else {
            return Ok(None);
        };
        if is_over(&prompt.line, count) {
            return Err(TooSmall);
        }
        Ok(self.open_first())
    }

    // The first question that nobody has read is read. Its line, if there is one.
    fn open_first(&mut self) -> Option<Bytes>
        ensures line { result ≡ slice_get (unread_lines self.old) 0 }
        ensures questions { self.new ≡ read self.old }
    {
        let prompt = self.unread.pop_front()?;
        let asker = Asker {
            tag: prompt.tag,
            conv: prompt.conv,
        };
        self.opened.push(asker).unwrap();
        Some(prompt.line)
    }

    /// The question that has this tag is replied to, and forgotten. The answer is the conversation that asked it. It takes
    /// no memory.
    pub fn reply(&mut self, tag: u64) -> Result<u64, UnknownTag>
        ensures known { IfOk result (λ conv. asker_of tag self.old ≡ Some conv) }
        ensures unknown { IfErr result (λ _. asker_of tag self.old ≡ None) }
        ensures questions { self.new ≡ replied tag self.old }
    {
        let conv = find_asker(&self.opened, tag);
        drop_tag(&mut self.opened, tag);
        conv.ok_or(UnknownTag)
    }

    /// The questions of a conversation are forgotten. It takes no memory.
    pub fn withdraw(&mut self, conv: u64)
        ensures { self.new ≡ withdrawn conv self.old }
    {
        drop_unread(&mut self.unread, conv);
        drop_conv(&mut self.opened, conv);
    }

    /// The conversation of the oldest question that stands, read or not.
    pub fn first_asker(&self) -> Option<u64>
        ensures { result ≡ first_conv (standing self.now) }
    {
        match self.opened.first() {
            Some(asker) => Some(asker.conv),
            None => match self.unread.front() {
                Some(prompt) => Some(prompt.conv),
                None => None,
            },
        }
    }
}

// The conversation that asked the question of a tag.
fn find_asker(opened: &[Asker], tag: u64) -> Option<u64>
    ensures { result ≡ asker_in tag opened.now }
{
    for asker in opened {
        if asker.tag == tag {
            return Some(asker.conv);
        }
    }
    None
}

// The question of a tag is forgotten.
fn drop_tag(askers: &mut Vec<Asker>, tag: u64)
    ensures others { askers.new.items ≡ without_tag tag askers.old.items }
    ensures fewer { vec_len askers.new ≤ vec_len askers.old }
    ensures room { vec_capacity askers.new ≡ vec_capacity askers.old }
{
    askers.retain(|asker| asker.tag != tag);
}

// The questions of a conversation are forgotten, those that were read, and those that weren't.
fn drop_conv(askers: &mut Vec<Asker>, conv: u64)
    ensures others { askers.new.items ≡ without_conv conv askers.old.items }
    ensures fewer { vec_len askers.new ≤ vec_len askers.old }
    ensures room { vec_capacity askers.new ≡ vec_capacity askers.old }
{
    askers.retain(|asker| asker.conv != conv);
}

fn drop_unread(prompts: &mut VecDeque<Prompt>, conv: u64)
    ensures others { prompts.new.items ≡ without_asked conv prompts.old.items }
    ensures fewer { deque_len prompts.new ≤ deque_len prompts.old }
    ensures room { deque_capacity prompts.new ≡ deque_capacity prompts.old }
{
    prompts.retain(|prompt| prompt.conv != conv);
}
