// The keys of an agent with the text of their list, which all fids that read the same list share.
ghost use Rattle.std.specs.Prelude.{◌≡◌, ◌≤◌, ◌<◌, ◌+◌, ◌^◌, length, option_map, IfOk, OnOk, OnErr};
ghost use Rattle.key_lists.specs.Lists.{no_keys};
ghost use Rattle.key_lists.specs.Listing.{list_text};
ghost use Rattle.key_lists.specs.CtlLines.{after_lines, lines_fault, lines_of};
ghost use Rattle.key_ring.specs.Faults.{line_text};
ghost use Rattle.key_ring.specs.Switches.{switches};

use crate::ring::KeyRing;
use crate::shared_text::SharedText;
use crate::write::{Written, write_ctl};
use std::alloc::Global;
use std::marker::Model;
use wire_base::{Bytes, NoMemory};

/// The keys, and the text of their list where a fid reads it. To contracts it is the keys.
#[derive(Drop)]
pub struct ListedRing {
    keys: KeyRing,
    text: Option<SharedText>,
}

impl Model for ListedRing {
    ghost use Rattle.std.specs.Prelude.{◌≡◌, IfSome};
    ghost use Rattle.key_lists.specs.Lists.{KeyList};
    ghost use Rattle.key_lists.specs.Listing.{list_text};

    ghost Value = { KeyList };

    ghost view = { λ ring. ring.keys };

    ghost invariant = { λ ring. IfSome ring.text (λ text. text ≡ list_text ring.keys) };
}

impl ListedRing {
    /// No keys.
    pub fn new(alloc: Global) -> ListedRing
        ensures { result ≡ no_keys }
    {
        ListedRing {
            keys: KeyRing::new(alloc),
            text: None,
        }
    }

    /// The keys.
    pub fn keys(&self) -> &KeyRing
        ensures { result.now ≡ self.now }
    {
        &self.keys
    }

    /// The text of the list of keys. It is made where no fid reads it already.
    pub fn text(&mut self, alloc: Global) -> Result<SharedText, NoMemory>
        ensures text { IfOk result (λ text. text ≡ list_text self.old) }
        ensures same { self.new ≡ self.old }
    {
        if let Some(text) = &self.text {
            return text.share();
        }
        let mut bytes = Bytes::new(alloc);
        self.keys.list_text(&mut bytes)?;
        let text = SharedText::new(alloc, bytes)?;
        self.text = Some(text.share()?);
        Ok(text)
    }

    /// Carries the lines of a write of ctl out, and tells what became of them. The text of the old list is left to the fids that read it.
    pub fn write(&mut self, alloc: Global, content: &[u8]) -> Result<Written, NoMemory>
        requires { self.old.ever_added + length content.now < 2 ^ 64 }
        ensures keys { OnOk result (self.new ≡ after_lines self.old (lines_of content.now)) }
        ensures told { IfOk result (λ w. option_map line_text w.fault
            ≡ lines_fault self.old (lines_of content.now)) }
        ensures switches { IfOk result (λ w. w.switches
            ≡ switches self.old (lines_of content.now)) }
        ensures few { self.new.ever_added ≤ self.old.ever_added + length content.now }
        ensures err { OnErr result (self.new ≡ self.old) }
    {
        let _old = self.text.take();
        write_ctl(alloc, &mut self.keys, content)
    }

    /// Gives the text up where no fid reads it.
    pub fn forget(&mut self)
        ensures { self.new ≡ self.old }
    {
        if self.text.as_ref().is_some_and(SharedText::is_alone) {
            self.text = None;
        }
    }
}
