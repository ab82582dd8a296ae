// Who has a conversation open.
ghost use Rattle.std.specs.Prelude.{◌≡◌, not, filter};
ghost use Rattle.agent_talks.specs.Kept.{leaves};

/// A conversation that stands, and the fid of a connection that has it open.
#[derive(Clone, Copy, Debug)]
pub struct Speaker {
    pub conv: u64,
    pub conn: u64,
    pub fid: u32,
}

/// Whose conversations end.
#[derive(Clone, Copy)]
pub enum Leaving {
    Fid(u64, u32),
    Connection(u64),
}

/// Whether the conversation of a speaker ends.
pub fn leaves(leaving: Leaving, speaker: &Speaker) -> bool
    ensures { result ≡ leaves leaving speaker.now }
{
    match leaving {
        Leaving::Fid(conn, fid) => speaker.conn == conn && speaker.fid == fid,
        Leaving::Connection(conn) => speaker.conn == conn,
    }
}

/// Those who leave are dropped.
pub(crate) fn keep_others(speakers: &mut Vec<Speaker>, leaving: Leaving)
    ensures { speakers.new.items ≡ filter (λ s. not (leaves leaving s)) speakers.old.items }
{
    speakers.retain(|speaker| !leaves(leaving, speaker));
}
