// The ticket request, in the clear.
ghost use Rattle.std.specs.Prelude.{◌≡◌, ◌<◌, ◌≤◌, ◌↔◌, length, Ok, Err};
ghost use Rattle.sealing.specs.Fields.{FirstBad};
ghost use Rattle.sealing.specs.Request.{IsRequest, request_fields, request_names, request_of, request_text};
ghost use Rattle.sealing.specs.declared.request.TicketReq.{TicketReq};
ghost use Rattle.sealing.specs.declared.fault.FieldFault.{FieldFault};
ghost use Rattle.sealing.specs.declared.fault.FieldFault.TheVariants.{Short};

use crate::fault::FieldFault;
use crate::field::{bytes_in, name_in};
use crate::writer::RecordWriter;
use wire_base::Name;

// The size of a request.
const REQUEST_BYTES: usize = 141;

/// What a client asks of the authentication server (authsrv(6)).
#[derive(Clone, Copy, Debug, PartialEq, Eq)]
pub struct TicketReq {
    pub kind: u8,
    /// The server's user.
    pub authid: Name<28>,
    /// The server's domain.
    pub authdom: Name<48>,
    /// The server's challenge.
    pub chal: [u8; 8],
    /// The user that the client's machine is of.
    pub hostid: Name<28>,
    /// The user that the client wants to be.
    pub uid: Name<28>,
}

/// The bytes of a request.
pub fn write_req(r: &TicketReq) -> [u8; 141]
    ensures value { result ≡ request_text r.now }
    ensures read { request_of result ≡ Ok r.now }
{
    let mut out = RecordWriter::<141>::new();
    out.put(&[r.kind]);
    out.put_name(&r.authid);
    out.put_name(&r.authdom);
    out.put(&r.chal);
    out.put_name(&r.hostid);
    out.put_name(&r.uid);
    out.finish()
}

// The fields of a request, in order.
#[tactic(auto, unfolding(crate::specs::Request::request_fields))]
fn request_fields(input: &[u8]) -> Result<TicketReq, FieldFault>
    requires { 141 ≤ length input.now }
    ensures { result ≡ request_fields input.now }
{
    Ok(TicketReq {
        kind: input[0],
        authid: name_in(input, 1)?,
        authdom: name_in(input, 29)?,
        chal: bytes_in(input, 77),
        hostid: name_in(input, 85)?,
        uid: name_in(input, 113)?,
    })
}

/// Reads the first 141 bytes as a request. A name is what stands before the first NUL of its field, whatever is
/// behind it.
#[tactic(auto, unfolding(crate::specs::Request::request_of), using(crate::proofs::RequestLaws::request_layout, crate::proofs::RequestLaws::request_short))]
pub fn read_req(input: &[u8]) -> Result<TicketReq, FieldFault>
    ensures value { result ≡ request_of input.now }
    ensures layout { (r : TicketReq) → (result ≡ Ok r) ↔ IsRequest input.now r }
    ensures fault { (fault : FieldFault) → 141 ≤ length input.now
        → (result ≡ Err fault) ↔ FirstBad request_names input.now fault }
    ensures short { (result ≡ Err (Short 141)) ↔ (length input.now < 141) }
{
    if input.len() < REQUEST_BYTES {
        return Err(FieldFault::Short { need: 141 });
    }
    request_fields(input)
}
