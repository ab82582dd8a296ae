// Tables of the authentication server.
use crate::came::Came;
use crate::messages::Messages;
use crate::play_fault::PlayFault;
use auth_tables::{KeyTable, TableFault, parse_keys, parse_speaks};
use row_files::{Report, Row};
use std::alloc::Global;
use wire_base::Bytes;

/// How many bytes a table has at most.
const MOST_BYTES: usize = 1 << 30;

// The table that was read last; none of its rows names messages.
#[derive(Drop)]
struct Player {
    alloc: Global,
    messages: Messages,
    table: Option<KeyTable>,
}

/// Plays a file of tables.
pub(crate) fn play(
    alloc: Global,
    file: &str,
    rows: &[Row],
    report: &mut Report,
) -> anyhow::Result<()> {
    let mut player = Player {
        alloc,
        messages: Messages::new(alloc),
        table: None,
    };
    for row in rows {
        player.tell(file, row, report)?;
    }
    Ok(())
}

impl Player {
    fn tell(&mut self, file: &str, row: &Row, report: &mut Report) -> anyhow::Result<()> {
        let mut came = Came::new(self.alloc);
        let played = self.carry_out(row, &mut came);
        came.settle(file, row, played, report)
    }

    fn carry_out(&mut self, row: &Row, came: &mut Came) -> Result<(), PlayFault> {
        match row.word() {
            b"keys" => self.read_keys(row, came),
            b"speaks" => self.read_speaks(row, came),
            b"numbered-keys" => self.read_numbered_keys(row.number(1), came),
            b"numbered-speaks" => self.read_numbered_speaks(row.number(1), came),
            b"find" => self.find(row.field(1), came),
            b"user-at" => self.user_at(row.number(1), came),
            b"speaks-for" => self.speaks_for(row, came),
            _ => Err(PlayFault::Row("nothing is to be done")),
        }
    }

    // A table of keys, which the rows behind it look into.
    fn read_keys(&mut self, row: &Row, came: &mut Came) -> Result<(), PlayFault> {
        let text = self.messages.join(row, 1)?;
        match keys_of(self.alloc, text.as_slice())? {
            Ok(table) => self.table = Some(table),
            Err(fault) => return tell_fault(fault, came),
        }
        Ok(came.put(b"good")?)
    }

    fn read_speaks(&self, row: &Row, came: &mut Came) -> Result<(), PlayFault> {
        let text = self.messages.join(row, 1)?;
        tell_speaks(self.alloc, text.as_slice(), came)
    }

    fn read_numbered_keys(&self, count: Option<u64>, came: &mut Came) -> Result<(), PlayFault> {
        let text = numbered_lines(self.alloc, count)?;
        match keys_of(self.alloc, text.as_slice())? {
            Ok(_) => Ok(came.put(b"good")?),
            Err(fault) => tell_fault(fault, came),
        }
    }

    fn read_numbered_speaks(&self, count: Option<u64>, came: &mut Came) -> Result<(), PlayFault> {
        let text = numbered_lines(self.alloc, count)?;
        tell_speaks(self.alloc, text.as_slice(), came)
    }

    // The DES key of a user and the password, if there is one.
    fn find(&self, user: Option<&[u8]>, came: &mut Came) -> Result<(), PlayFault> {
        let (Some(table), Some(user)) = (&self.table, user) else {
            return Err(PlayFault::Row("no table or no user"));
        };
        let Some(key) = table.find(user) else {
            return Ok(came.put(b"none")?);
        };
        let des = key.des();
        came.put(des.0.as_slice())?;
        if let Some(password) = key.password() {
            came.put(password.as_slice())?;
        }
        Ok(())
    }

    // The user of the entry at a place.
    fn user_at(&self, place: Option<u64>, came: &mut Came) -> Result<(), PlayFault> {
        let (Some(table), Some(place)) = (&self.table, place) else {
            return Err(PlayFault::Row("no table or no place"));
        };
        match table.user_at(place as usize) {
            Some(user) => came.put(user.as_slice())?,
            None => came.put(b"none")?,
        }
        Ok(())
    }

    // Whether by these lines a host may speak for a user.
    fn speaks_for(&self, row: &Row, came: &mut Came) -> Result<(), PlayFault> {
        let (Some(lines), Some(host), Some(user)) = (row.field(1), row.field(2), row.field(3))
        else {
            return Err(PlayFault::Row("no lines, no host or no user"));
        };
        match may_speak(self.alloc, lines, host, user)? {
            true => came.put(b"yes")?,
            false => came.put(b"no")?,
        }
        Ok(())
    }
}

// Reads a table of keys.
fn keys_of(alloc: Global, text: &[u8]) -> Result<Result<KeyTable, TableFault>, PlayFault> {
    if text.len() > MOST_BYTES {
        return Err(PlayFault::Row("a long table"));
    }
    Ok(parse_keys(alloc, text))
}

// Reads a table of who speaks for whom, and tells its first bad line.
fn tell_speaks(alloc: Global, text: &[u8], came: &mut Came) -> Result<(), PlayFault> {
    if text.len() > MOST_BYTES {
        return Err(PlayFault::Row("a long table"));
    }
    match parse_speaks(alloc, text) {
        Ok(_) => Ok(came.put(b"good")?),
        Err(fault) => tell_fault(fault, came),
    }
}

fn may_speak(alloc: Global, lines: &[u8], host: &[u8], user: &[u8]) -> Result<bool, PlayFault> {
    if lines.len() > MOST_BYTES {
        return Err(PlayFault::Row("a long table"));
    }
    match parse_speaks(alloc, lines) {
        Ok(table) => Ok(table.speaks_for(host, user)),
        Err(_) => Err(PlayFault::Row("a bad line")),
    }
}

// The first bad line of a table.
fn tell_fault(fault: TableFault, came: &mut Came) -> Result<(), PlayFault> {
    match fault {
        TableFault::Line { line } => {
            came.put(b"line")?;
            came.put_number(u64::from(line))?;
            Ok(())
        }
        TableFault::NoMemory => Err(PlayFault::NoMemory),
    }
}

// So many lines that count, each of another user, with a comment in front.
fn numbered_lines(alloc: Global, count: Option<u64>) -> Result<Bytes, PlayFault> {
    let Some(count) = count else {
        return Err(PlayFault::Row("no number of lines"));
    };
    let mut text = Bytes::from_slice(alloc, b"# all of them\n")?;
    for number in 0..count {
        let line = format!(in alloc; "hostid=h user=u{number} !password=a\n")?;
        text.append(line.as_bytes())?;
    }
    Ok(text)
}
