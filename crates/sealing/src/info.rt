// The authinfo, in the clear.
ghost use Rattle.std.specs.Prelude.{◌≡◌, ◌↔◌, ◌++◌, Some, OnOk, OnErr};
ghost use Rattle.wire_base.specs.Readers.{Finds};
ghost use Rattle.wire_base.specs.declared.name.AuthInfo.{AuthInfo};
ghost use Rattle.sealing.specs.Info.{IsInfo, info_text};
ghost use Rattle.sealing.specs.InfoReading.{eight_at, given, info_reading, name_at};

use crate::field::bytes_in;
use crate::writer::RecordWriter;
use wire_base::{AuthInfo, BadField, Bytes, Name, NoMemory, end_at, string_at, u16_at};

/// Two names of at most 27 bytes and a secret of 8, each with its length, and the length of no capability.
const MOST_BYTES: usize = 70;

/// Appends the one spelling. Where memory runs out, nothing is appended.
pub fn write_info(i: &AuthInfo, out: &mut Bytes) -> Result<(), NoMemory>
    ensures ok { OnOk result (out.new ≡ out.old ++ info_text i.now) }
    ensures err { OnErr result (out.new ≡ out.old) }
    ensures read { IsInfo (info_text i.now) i.now }
{
    let mut spelling = RecordWriter::<MOST_BYTES>::new();
    spelling.put_counted(i.cuid.text());
    spelling.put_counted(i.suid.text());
    spelling.put_counted(&[]);
    spelling.put_counted(&i.secret);
    out.append(spelling.written())
}

// A counted name.
#[tactic(auto, unfolding(crate::specs::InfoReading::name_at), using(crate::proofs::InfoLaws::is_name))]
fn name_at(bytes: &[u8], at: usize) -> Result<(Name<28>, usize), BadField>
    ensures { Finds (λ x. x) result (name_at bytes.now at) }
{
    let (text, next) = string_at(bytes, at)?;
    match Name::from_text(text) {
        Some(name) => Ok((name, next)),
        None => Err(BadField { at }),
    }
}

// The place behind two bytes that are this number.
#[tactic(auto, unfolding(crate::specs::InfoReading::given))]
fn given(wanted: u16, bytes: &[u8], at: usize) -> Result<usize, BadField>
    ensures { Finds (λ next. (tt, next)) result (given wanted bytes.now at) }
{
    let (number, next) = u16_at(bytes, at)?;
    if number != wanted {
        return Err(BadField { at });
    }
    Ok(next)
}

// Eight bytes.
#[tactic(auto, unfolding(crate::specs::InfoReading::eight_at))]
fn eight_at(bytes: &[u8], at: usize) -> Result<([u8; 8], usize), BadField>
    ensures { Finds (λ x. x) result (eight_at bytes.now at) }
{
    if at > bytes.len() || bytes.len() - at < 8 {
        return Err(BadField { at });
    }
    Ok((bytes_in(bytes, at), at + 8))
}

#[tactic(auto, unfolding(crate::specs::InfoReading::info_reading))]
fn info_reading(bytes: &[u8]) -> Result<AuthInfo, BadField>
    ensures { Finds (λ x. x) result (info_reading bytes.now) }
{
    let (cuid, at) = name_at(bytes, 0)?;
    let (suid, at) = name_at(bytes, at)?;
    let at = given(0, bytes, at)?;
    let at = given(8, bytes, at)?;
    let (secret, at) = eight_at(bytes, at)?;
    end_at(bytes, at)?;
    Ok(AuthInfo { cuid, suid, secret })
}

/// None exactly where the bytes aren't the one spelling of an authinfo.
pub fn read_info(input: &[u8]) -> Option<AuthInfo>
    ensures { (i : AuthInfo) → (result ≡ Some i) ↔ IsInfo input.now i }
{
    match info_reading(input) {
        Ok(info) => Some(info),
        Err(_) => None,
    }
}
