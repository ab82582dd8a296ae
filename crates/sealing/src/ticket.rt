// The ticket, sealed under the key of the one who is to open it.
ghost use Rattle.std.specs.Prelude.{ℕ, ◌≡◌, ◌≢◌, ◌↔◌, Ok, Err};
ghost use Rattle.sealing.specs.Sealing.{opened, sealed};
ghost use Rattle.sealing.specs.Fields.{FirstBad};
ghost use Rattle.sealing.specs.Ticket.{IsTicket, ticket_names, ticket_of, ticket_text};
ghost use Rattle.sealing.specs.declared.ticket.Ticket.{Ticket};
ghost use Rattle.sealing.specs.declared.fault.FieldFault.{FieldFault};
ghost use Rattle.sealing.specs.declared.fault.FieldFault.TheVariants.{Short};

use crate::fault::FieldFault;
use crate::field::{bytes_in, name_in};
use crate::keys::Key7;
use crate::sealing::{open_seal, seal};
use crate::writer::RecordWriter;
use wire_base::Name;

/// What the authentication server says to one of the two (authsrv(6)). It has no Debug, which would print the
/// key.
#[derive(Clone, Copy, PartialEq, Eq)]
pub struct Ticket {
    /// Whom the ticket is for: the server or the client.
    pub num: u8,
    /// The server's challenge.
    pub chal: [u8; 8],
    /// The user on the client's machine.
    pub cuid: Name<28>,
    /// The user as the server knows it.
    pub suid: Name<28>,
    /// The key that both of them are given.
    pub key: Key7,
}

// The ticket in the clear.
fn write_ticket(t: &Ticket) -> [u8; 72]
    ensures value { result ≡ ticket_text t.now }
    ensures read { ticket_of result ≡ Ok t.now }
{
    let mut out = RecordWriter::<72>::new();
    out.put(&[t.num]);
    out.put(&t.chal);
    out.put_name(&t.cuid);
    out.put_name(&t.suid);
    out.put(&t.key.0);
    out.finish()
}

#[tactic(auto, unfolding(crate::specs::Ticket::ticket_of))]
fn read_ticket(bytes: &[u8; 72]) -> Result<Ticket, FieldFault>
    ensures { result ≡ ticket_of bytes.now }
{
    Ok(Ticket {
        num: bytes[0],
        chal: bytes_in(bytes, 1),
        cuid: name_in(bytes, 9)?,
        suid: name_in(bytes, 37)?,
        key: Key7(bytes_in(bytes, 65)),
    })
}

/// The ticket, sealed.
pub fn seal_ticket(t: &Ticket, k: &Key7) -> [u8; 72]
    ensures value { result ≡ sealed k.now.0 (ticket_text t.now) }
    ensures opened { ticket_of (opened k.now.0 result) ≡ Ok t.now }
{
    let mut bytes = write_ticket(t);
    seal(k, &mut bytes);
    bytes
}

/// Opens a ticket and reads its fields; under a wrong key they are whatever comes out. It never wants more bytes.
pub fn open_ticket(input: &[u8; 72], k: &Key7) -> Result<Ticket, FieldFault>
    ensures value { result ≡ ticket_of (opened k.now.0 input.now) }
    ensures layout { (t : Ticket) → (result ≡ Ok t) ↔ IsTicket (opened k.now.0 input.now) t }
    ensures fault { (fault : FieldFault)
        → (result ≡ Err fault) ↔ FirstBad ticket_names (opened k.now.0 input.now) fault }
    ensures never_short { (need : ℕ) → result ≢ Err (Short need) }
{
    let mut bytes = *input;
    open_seal(k, &mut bytes);
    read_ticket(&bytes)
}
