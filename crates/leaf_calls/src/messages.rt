// The public calls of `nine`.
ghost use Rattle.std.specs.Prelude.{◌≡◌, ◌<◌, Err, IfOk, Ok, ◌+◌, ◌-◌, ◌^◌, ◌++◌, length, OnOk, OnErr, ℕ, List};
ghost use Rattle.nine.specs.Decoded.{Decodes, HasType, r_takes_memory, t_takes_memory};
ghost use Rattle.nine.specs.Decoding.{IsFrame, r_reading, t_reading};
ghost use Rattle.nine.specs.Framing.{HasHandedOut};
ghost use Rattle.nine.specs.Messages.{r_given, IsReply, t_given, IsRequest, r_frame, t_frame};
ghost use Rattle.nine.specs.declared.message.RBody.TheVariants as r;
ghost use Rattle.nine.specs.declared.message.RMsg.{RMsg};
ghost use Rattle.nine.specs.declared.message.TBody.TheVariants as t;
ghost use Rattle.nine.specs.declared.message.TMsg.{TMsg};

use nine::{DecodeFault, Framer, Qid, RMsg, TMsg};
use std::alloc::Global;
use wire_base::{Bytes, NoMemory};

/// As `decode_r`.
pub fn decode_r(alloc: Global, frame: &[u8]) -> Result<RMsg, DecodeFault>
    requires { IsFrame frame.now }
    ensures found { IfOk result (λ m. IsReply frame.now m) }
    ensures given { IfOk result (λ m. r_given m.body) }
    ensures only { (m : RMsg) → IsReply frame.now m → Decodes result (Ok m) }
    ensures exact { Decodes result (r_reading frame.now) }
    ensures memory { result ≡ Err DecodeFault.NoMemory → HasType r_takes_memory frame.now }
{
    nine::decode_r(alloc, frame)
}

/// As `decode_t`.
pub fn decode_t(alloc: Global, frame: &[u8]) -> Result<TMsg, DecodeFault>
    requires { IsFrame frame.now }
    ensures found { IfOk result (λ m. IsRequest frame.now m) }
    ensures given { IfOk result (λ m. t_given m.body) }
    ensures only { (m : TMsg) → IsRequest frame.now m → Decodes result (Ok m) }
    ensures exact { Decodes result (t_reading frame.now) }
    ensures memory { result ≡ Err DecodeFault.NoMemory → HasType t_takes_memory frame.now }
{
    nine::decode_t(alloc, frame)
}

/// As `put_version`.
pub fn put_version(tag: u16, msize: u32, version: &[u8], out: &mut Bytes) -> Result<(), NoMemory>
    requires { length version.now < 2 ^ 16 }
    ensures ok { OnOk result (out.new
        ≡ out.old ++ r_frame (record { tag = tag; body = r.Version msize version.now })) }
    ensures err { OnErr result (out.new ≡ out.old) }
{
    nine::put_version(tag, msize, version, out)
}

/// As `put_error`.
pub fn put_error(tag: u16, ename: &[u8], out: &mut Bytes) -> Result<(), NoMemory>
    requires { length ename.now < 2 ^ 16 }
    ensures ok { OnOk result (out.new
        ≡ out.old ++ r_frame (record { tag = tag; body = r.Error ename.now })) }
    ensures err { OnErr result (out.new ≡ out.old) }
{
    nine::put_error(tag, ename, out)
}

/// As `put_flush`.
pub fn put_flush(tag: u16, out: &mut Bytes) -> Result<(), NoMemory>
    ensures ok { OnOk result (out.new ≡ out.old ++ r_frame (record { tag = tag; body = r.Flush })) }
    ensures err { OnErr result (out.new ≡ out.old) }
{
    nine::put_flush(tag, out)
}

/// As `put_open`.
pub fn put_open(tag: u16, qid: &Qid, iounit: u32, out: &mut Bytes) -> Result<(), NoMemory>
    ensures ok { OnOk result (out.new
        ≡ out.old ++ r_frame (record { tag = tag; body = r.Open qid.now iounit })) }
    ensures err { OnErr result (out.new ≡ out.old) }
{
    nine::put_open(tag, qid, iounit, out)
}

/// As `put_write`.
pub fn put_write(tag: u16, count: u32, out: &mut Bytes) -> Result<(), NoMemory>
    ensures ok { OnOk result (out.new
        ≡ out.old ++ r_frame (record { tag = tag; body = r.Write count })) }
    ensures err { OnErr result (out.new ≡ out.old) }
{
    nine::put_write(tag, count, out)
}

/// As `put_clunk`.
pub fn put_clunk(tag: u16, out: &mut Bytes) -> Result<(), NoMemory>
    ensures ok { OnOk result (out.new ≡ out.old ++ r_frame (record { tag = tag; body = r.Clunk })) }
    ensures err { OnErr result (out.new ≡ out.old) }
{
    nine::put_clunk(tag, out)
}

/// As `put_remove`.
pub fn put_remove(tag: u16, out: &mut Bytes) -> Result<(), NoMemory>
    ensures ok { OnOk result (out.new
        ≡ out.old ++ r_frame (record { tag = tag; body = r.Remove })) }
    ensures err { OnErr result (out.new ≡ out.old) }
{
    nine::put_remove(tag, out)
}

/// As `encode_r`.
pub fn encode_r(m: &RMsg, out: &mut Bytes) -> Result<(), NoMemory>
    requires { r_given m.now.body }
    ensures ok { OnOk result (out.new ≡ out.old ++ r_frame m.now) }
    ensures err { OnErr result (out.new ≡ out.old) }
{
    nine::encode_r(m, out)
}

/// As `encode_t`.
pub fn encode_t(m: &TMsg, out: &mut Bytes) -> Result<(), NoMemory>
    requires { t_given m.now.body }
    ensures ok { OnOk result (out.new ≡ out.old ++ t_frame m.now) }
    ensures err { OnErr result (out.new ≡ out.old) }
{
    nine::encode_t(m, out)
}

/// As `Framer::place`.
pub fn framer_place(framer: &Framer) -> u64
    ensures { result ≡ framer.now.before }
{
    framer.place()
}

/// As `Framer::feed`.
pub fn framer_feed(framer: &mut Framer, piece: &[u8]) -> Result<(), NoMemory>
    requires { framer.old.before + length framer.old.held + length piece.now < 2 ^ 63 }
    ensures ok { OnOk result (framer.new
        ≡ record {
          limit = framer.old.limit;
          before = framer.old.before;
          held = framer.old.held
              ++ piece.now;
        }) }
    ensures stream { OnOk result ((stream : List ℕ) (handed : List (List ℕ))
        → HasHandedOut framer.old stream handed
        → HasHandedOut framer.new (stream ++ piece.now) handed) }
    ensures err { OnErr result (framer.new ≡ framer.old) }
{
    framer.feed(piece)
}
