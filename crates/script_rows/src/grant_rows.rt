// Rows of what the authentication server used and granted at requests, by the tables that were in force.
use crate::came::Came;
use crate::spelled_terms::term_of;
use crate::texts::{Texts, argument, number_at};
use anyhow::bail;
use auth_tables::{KeyTable, SpeaksTable, parse_keys, parse_speaks};
use row_files::{Report, Row};
use sealing::{TicketReq, write_req};
use std::alloc::Global;
use symbolic_runs::Term;
use trace_runs::{Used, grant_of};
use wire_base::{Bytes, Name, Text};
use wire_histories::Setting;

/// How many bytes the text of a table may have.
const MOST_BYTES: usize = 65_536;

fn keys_of(alloc: Global, text: &[u8]) -> anyhow::Result<KeyTable> {
    if text.len() > MOST_BYTES {
        bail!("a long table");
    }
    match parse_keys(alloc, text) {
        Ok(table) => Ok(table),
        Err(_) => bail!("a bad table of keys"),
    }
}

fn speaks_of(alloc: Global, text: &[u8]) -> anyhow::Result<SpeaksTable> {
    if text.len() > MOST_BYTES {
        bail!("a long table");
    }
    match parse_speaks(alloc, text) {
        Ok(table) => Ok(table),
        Err(_) => bail!("a bad table of who speaks"),
    }
}

fn name_at<const N: usize>(row: &Row, at: usize) -> anyhow::Result<Name<N>> {
    match Name::from_text(argument(row, at)?) {
        Some(name) => Ok(name),
        None => bail!("a field is no name"),
    }
}

// The bytes of a request of a kind, from a server's user, a host's and a client's.
fn request_of(alloc: Global, row: &Row) -> anyhow::Result<Bytes> {
    let Some(domain) = Name::from_text(b"dom") else {
        bail!("no domain");
    };
    let request = TicketReq {
        kind: u8::try_from(number_at(row, 2)?)?,
        authid: name_at(row, 3)?,
        authdom: domain,
        chal: [9; 8],
        hostid: name_at(row, 4)?,
        uid: name_at(row, 5)?,
    };
    Ok(Bytes::from_slice(alloc, &write_req(&request))?)
}

fn put_name(name: Option<&Text>, came: &mut Came) -> anyhow::Result<()> {
    match name {
        Some(name) => Ok(came.put(name.as_slice())?),
        None => Ok(came.put(b"-")?),
    }
}

fn put_used(used: &Used, came: &mut Came) -> anyhow::Result<()> {
    match used {
        Used::Keys { sealer, host } => {
            came.put(b"keys")?;
            put_name(sealer.as_ref(), came)?;
            put_name(host.as_ref(), came)
        }
        Used::KeyAndPassword { sealer, name } => {
            came.put(b"password")?;
            put_name(sealer.as_ref(), came)?;
            put_name(Some(name), came)
        }
    }
}

/// What the rows that follow are over: texts under names, and the tables that the authentication server had.
#[derive(Drop)]
struct Server {
    texts: Texts,
    setting: Setting,
}

impl Server {
    fn new(alloc: Global) -> anyhow::Result<Server> {
        let Some(dom) = Text::from_slice(alloc, b"dom")? else {
            bail!("no domain");
        };
        Ok(Server {
            texts: Texts::new(alloc),
            setting: Setting::new(alloc, dom),
        })
    }

    // `tables KEYS SPEAKS`: the server has these tables from then on.
    fn note(&mut self, alloc: Global, row: &Row) -> anyhow::Result<()> {
        let keys = keys_of(alloc, argument(row, 1)?)?;
        let speaks = speaks_of(alloc, argument(row, 2)?)?;
        Ok(self.setting.note_tables(keys, speaks)?)
    }

    // What is granted by the tables of a number at a request, with the label that the row spells from a place on.
    fn put_granted(
        &self,
        rt: &HostRuntime,
        row: &Row,
        request: &[u8],
        from: usize,
        came: &mut Came,
    ) -> anyhow::Result<()> {
        let alloc = rt.alloc();
        let tables = u32::try_from(number_at(row, 1)?)?;
        let label = term_of(alloc, row, from)?;
        let granted = grant_of(alloc, &self.setting, tables, request, &label)?;
        put_used(&granted.used, came)?;
        came.put_yes(granted.challenge.same(&Term::Nonce(8)))?;
        self.texts
            .put_came(rt, row, 4, granted.host.as_slice(), came)?;
        self.texts
            .put_came(rt, row, 5, granted.user.as_slice(), came)
    }

    fn play(&mut self, rt: &HostRuntime, row: &Row, came: &mut Came) -> anyhow::Result<()> {
        let alloc = rt.alloc();
        match row.word() {
            b"tables" => self.note(alloc, row),
            b"grant" => {
                let request = request_of(alloc, row)?;
                self.put_granted(rt, row, request.as_slice(), 6, came)
            }
            b"bytes" => self.put_granted(rt, row, argument(row, 2)?, 3, came),
            b"text" | b"times" => self.texts.keep(rt, row),
            _ => bail!("no such row"),
        }
    }
}

/// Plays rows of what is granted.
pub(crate) fn play(
    rt: &HostRuntime,
    file: &str,
    rows: &[Row],
    report: &mut Report,
) -> anyhow::Result<()> {
    let mut server = Server::new(rt.alloc())?;
    for row in rows {
        let mut came = Came::new(rt.alloc());
        let played = server.play(rt, row, &mut came);
        came.tell(file, row, played, report)?;
    }
    Ok(())
}
