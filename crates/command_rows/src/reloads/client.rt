// Clients, one after the other, and the lines of what they ask.
use super::files::Tables;
use auth_program::print_notice;
use auth_server::{AuthEnd, Log, Notice, serve_auth_noting};
use sealing::{AUTH_CRAM, TicketReq, cram_answer, write_req};
use std::alloc::Global;
use wire_base::{Bytes, Name};
use wire_streams::{MemSink, MemSource, MemWords};

/// The challenge that is given for words of sevens.
const CHALLENGE: &[u8] = b"<0707070707070707@x>";

/// The lines of the log.
#[derive(Drop)]
pub(crate) struct Lines {
    address: Name<48>,
    text: Bytes,
}

impl Log for Lines {
    ghost use Rattle.std.specs.Prelude.{None};

    ghost noted = { λ _. None };

    fn note(&mut self, notice: &Notice) {
        let _ = print_notice(&self.address, notice, &mut self.text);
    }
}

fn name<const N: usize>(text: &[u8]) -> anyhow::Result<Name<N>> {
    match Name::from_text(text) {
        Some(name) => Ok(name),
        None => anyhow::bail!("no name"),
    }
}

/// A request of a mail server for a user.
pub(crate) fn request(user: &[u8]) -> anyhow::Result<[u8; 141]> {
    Ok(write_req(&TicketReq {
        kind: AUTH_CRAM,
        authid: name(b"door")?,
        authdom: name(b"x")?,
        chal: [1; 8],
        hostid: name(b"door")?,
        uid: name(user)?,
    }))
}

/// The digits that answer the challenge under a password.
pub(crate) fn digits_for(password: &[u8]) -> [u8; 32] {
    cram_answer(CHALLENGE, password)
}

impl Lines {
    pub(crate) fn new(alloc: Global) -> anyhow::Result<Lines> {
        Ok(Lines {
            address: name(b"unix")?,
            text: Bytes::new(alloc),
        })
    }

    /// All lines.
    pub(crate) fn into_text(self) -> Bytes {
        self.text
    }

    /// A client that asks for a challenge for a user, and answers it under these passwords, one after the other.
    pub(crate) fn serve(
        &mut self,
        alloc: Global,
        tables: &mut Tables,
        user: &[u8],
        passwords: &[&[u8]],
    ) -> anyhow::Result<()> {
        let request = request(user)?;
        let mut sent = Bytes::new(alloc);
        sent.append(&request)?;
        for password in passwords {
            sent.append(&request)?;
            sent.append(&digits_for(password))?;
        }
        let mut source = MemSource::new(sent.into_vec(), Vec::new(alloc));
        let mut sink = MemSink::new(Vec::new(alloc), Vec::new(alloc));
        let mut words = MemWords::new([[7u8; 8]; 15].to_vec(alloc)?, Vec::new(alloc));
        let end = serve_auth_noting(alloc, tables, &mut source, &mut sink, &mut words, self);
        match end {
            AuthEnd::End => Ok(()),
            _ => anyhow::bail!("the client wasn't served to its end"),
        }
    }
}
