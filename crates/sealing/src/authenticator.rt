// The authenticator, sealed under the key of a ticket.
ghost use Rattle.std.specs.Prelude.{◌≡◌, ◌↔◌};
ghost use Rattle.sealing.specs.Sealing.{opened, sealed};
ghost use Rattle.sealing.specs.Authenticator.{IsAuthenticator, authenticator_of, authenticator_text};
ghost use Rattle.sealing.specs.declared.authenticator.Authenticator.{Authenticator};

use crate::field::bytes_in;
use crate::keys::Key7;
use crate::sealing::{open_seal, seal};
use crate::writer::RecordWriter;

/// What shows that its sender opened a ticket (authsrv(6)).
#[derive(Clone, Copy, Debug, PartialEq, Eq)]
pub struct Authenticator {
    /// Who sends it: the client or the server.
    pub num: u8,
    /// The challenge of the one to whom it is sent.
    pub chal: [u8; 8],
    pub id: u32,
}

// The authenticator in the clear.
fn write_auth(a: &Authenticator) -> [u8; 13]
    ensures value { result ≡ authenticator_text a.now }
    ensures read { authenticator_of result ≡ a.now }
{
    let mut out = RecordWriter::<13>::new();
    out.put(&[a.num]);
    out.put(&a.chal);
    out.put(&a.id.to_le_bytes());
    out.finish()
}

#[tactic(auto, unfolding(crate::specs::Authenticator::authenticator_of))]
fn read_auth(bytes: &[u8; 13]) -> Authenticator
    ensures { result ≡ authenticator_of bytes.now }
{
    Authenticator {
        num: bytes[0],
        chal: bytes_in(bytes, 1),
        id: u32::from_le_bytes(bytes_in(bytes, 9)),
    }
}

/// The authenticator, sealed.
pub fn seal_auth(a: &Authenticator, k: &Key7) -> [u8; 13]
    ensures value { result ≡ sealed k.now.0 (authenticator_text a.now) }
    ensures opened { authenticator_of (opened k.now.0 result) ≡ a.now }
{
    let mut bytes = write_auth(a);
    seal(k, &mut bytes);
    bytes
}

/// Opens an authenticator; any 13 bytes are one. Under a wrong key its fields are whatever comes out.
pub fn open_auth(input: &[u8; 13], k: &Key7) -> Authenticator
    ensures value { result ≡ authenticator_of (opened k.now.0 input.now) }
    ensures layout { (a : Authenticator)
        → (result ≡ a) ↔ IsAuthenticator (opened k.now.0 input.now) a }
{
    let mut bytes = *input;
    open_seal(k, &mut bytes);
    read_auth(&bytes)
}
