// How a frame is answered.
ghost use Rattle.std.specs.Prelude.{◌≡◌, List, None, OnOk, OnErr};
ghost use Rattle.nine.specs.Messages.{t_given};
ghost use Rattle.nine.specs.Decoding.{IsFrame};
ghost use Rattle.doors.specs.Calls.{PortCall};
ghost use Rattle.doors.specs.Deeds.{Deed};
ghost use Rattle.doors.specs.Requests.{refusal};
ghost use Rattle.doors.specs.Doors.{Answered, Carried, Keeps};

use crate::connection::{Connection, tag_of};
use crate::port::Port;
use crate::refusal::{Refusal, Refused};
use nine::{TBody, put_error, put_flush};
use wire_base::{Bytes, NoMemory};

impl Connection {
    // Carries out a request that no test refuses.
    fn carry_out<P: Port>(
        &mut self,
        tag: u16,
        body: TBody,
        port: &mut P,
        out: &mut Bytes,
    ) -> Result<(), NoMemory>
        requires given { t_given body }
        requires tested { refusal self.old.fids body ≡ None }
        ensures ok { OnOk result ((done : List Deed) (setting : P.Setting) (past : List PortCall)
            → Keeps done self.old
            → P.stands setting past port.old
            → Carried (P.stands setting) done past tag body self.new port.new out.old out.new) }
        ensures err { OnErr result (out.new ≡ out.old) }
    {
        match body {
            TBody::Version { msize, version } => {
                self.version(tag, msize, version.as_slice(), port, out)
            }
            TBody::Auth { afid, uname, aname } => self.auth(tag, afid, uname, aname, port, out),
            TBody::Attach {
                fid,
                afid,
                uname,
                ..
            } => self.attach(tag, fid, afid, uname, port, out),
            TBody::Flush { .. } => put_flush(tag, out),
            TBody::Walk { fid, newfid, wname } => {
                self.walk(tag, fid, newfid, wname.as_slice(), out)
            }
            TBody::Open { fid, .. } => self.open(tag, fid, out),
            TBody::Create { .. } => put_error(tag, Refusal::Denied.text(), out),
            TBody::Read { fid, offset, count } => self.read(tag, fid, offset, count, port, out),
            TBody::Write { fid, content, .. } => {
                self.write(tag, fid, content.as_slice(), port, out)
            }
            TBody::Clunk { fid } => self.clunk(tag, fid, port, out),
            TBody::Remove { fid } => self.remove(tag, fid, port, out),
            TBody::Stat { fid } => self.stat(tag, fid, out),
            TBody::Wstat { .. } => put_error(tag, Refusal::Denied.text(), out),
        }
    }

    /// Answers a frame. Where memory runs out no reply is begun.
    pub fn answer<P: Port>(
        &mut self,
        frame: &[u8],
        port: &mut P,
        out: &mut Bytes,
    ) -> Result<(), NoMemory>
        requires { IsFrame frame.now }
        ensures ok { OnOk result ((done : List Deed) (setting : P.Setting) (past : List PortCall)
            → Keeps done self.old
            → P.stands setting past port.old
            → Answered (P.stands setting) done past frame.now self.new port.new out.old out.new) }
        ensures err { OnErr result (out.new ≡ out.old) }
    {
        match self.granted(frame) {
            Ok(body) => self.carry_out(tag_of(frame), body, port, out),
            Err(Refused::For(why)) => put_error(tag_of(frame), why.text(), out),
            Err(Refused::NoMemory) => Err(NoMemory),
        }
    }
}
