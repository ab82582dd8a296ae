// The setting of a record, as a program notes it.
use crate::calls::array_of;
use crate::came::Came;
use crate::clients::{keys_of, speaks_of};
use crate::play_fault::PlayFault;
use row_files::{Report, Row};
use sealing::Key7;
use std::alloc::Global;
use wire_base::Text;
use wire_histories::Setting;

// The setting that the rows are about.
#[derive(Drop)]
struct Player {
    alloc: Global,
    setting: Setting,
}

/// Plays a file of settings.
pub(crate) fn play(
    alloc: Global,
    file: &str,
    rows: &[Row],
    report: &mut Report,
) -> anyhow::Result<()> {
    let Some(dom) = Text::from_slice(alloc, b"x")? else {
        anyhow::bail!("the domain is no text");
    };
    let mut player = Player {
        alloc,
        setting: Setting::new(alloc, dom),
    };
    for row in rows {
        let mut came = Came::new(alloc);
        let played = player.carry_out(row, &mut came);
        came.settle(file, row, played, report)?;
    }
    Ok(())
}

impl Player {
    fn carry_out(&mut self, row: &Row, came: &mut Came) -> Result<(), PlayFault> {
        match row.word() {
            b"note-key" => self.note_key(row, came),
            b"note-tables" => self.note_tables(row, came),
            b"key-of" => self.key_of(row.field(1), came),
            b"password-of" => self.password_of(row.field(1), came),
            b"tables" => self.tables(row, came),
            _ => Err(PlayFault::Row("nothing is to be done")),
        }
    }

    // A conversation has found a key of seven bytes, with a password where one stands behind it.
    fn note_key(&mut self, row: &Row, came: &mut Came) -> Result<(), PlayFault> {
        let (Some(conv), Some(des)) = (row.field(1), row.field(2)) else {
            return Err(PlayFault::Row("no conversation or no key"));
        };
        let Some(des) = array_of::<7>(des) else {
            return Err(PlayFault::Row("no key of seven bytes"));
        };
        let password = match row.field(3) {
            Some(text) => Text::from_slice(self.alloc, text)?,
            None => None,
        };
        self.setting.note_key(conv, Key7(des), password)?;
        Ok(came.put(b"good")?)
    }

    // The authentication server has the tables of these texts.
    fn note_tables(&mut self, row: &Row, came: &mut Came) -> Result<(), PlayFault> {
        let (Some(keys), Some(speaks)) = (row.field(1), row.field(2)) else {
            return Err(PlayFault::Row("no tables"));
        };
        let keys = keys_of(self.alloc, keys)?;
        let speaks = speaks_of(self.alloc, speaks)?;
        self.setting.note_tables(keys, speaks)?;
        Ok(came.put(b"good")?)
    }

    fn key_of(&self, conv: Option<&[u8]>, came: &mut Came) -> Result<(), PlayFault> {
        let Some(conv) = conv else {
            return Err(PlayFault::Row("no conversation"));
        };
        match self.setting.key_of(conv) {
            Some(des) => came.put(des.0.as_slice())?,
            None => came.put(b"none")?,
        }
        Ok(())
    }

    fn password_of(&self, conv: Option<&[u8]>, came: &mut Came) -> Result<(), PlayFault> {
        let Some(conv) = conv else {
            return Err(PlayFault::Row("no conversation"));
        };
        match self.setting.password_of(conv) {
            Some(password) => came.put(password.as_slice())?,
            None => came.put(b"none")?,
        }
        Ok(())
    }

    // Of the tables of a number, the first user, and whether a host speaks for him.
    fn tables(&self, row: &Row, came: &mut Came) -> Result<(), PlayFault> {
        let (Some(number), Some(host)) = (row.number(1), row.field(2)) else {
            return Err(PlayFault::Row("no number or no host"));
        };
        let Ok(number) = u32::try_from(number) else {
            return Err(PlayFault::Row("a large number"));
        };
        let Some((keys, speaks)) = self.setting.tables(number) else {
            return Ok(came.put(b"none")?);
        };
        let Some(user) = keys.user_at(0) else {
            return Ok(came.put(b"nobody")?);
        };
        came.put(user.as_slice())?;
        match speaks.speaks_for(host, user.as_slice()) {
            true => came.put(b"yes")?,
            false => came.put(b"no")?,
        }
        Ok(())
    }
}
