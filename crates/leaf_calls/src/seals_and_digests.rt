// The public calls of `sealing`.
ghost use Rattle.std.specs.Prelude.{◌≡◌, ◌↔◌, ◌-◌, ◌++◌, OnOk, OnErr, Some, ◌%◌, All, count_ones, Ok, ◌≤◌, length, ℕ, ◌≢◌, Err};
ghost use Rattle.sealing.specs.Answer.{apop_digits, cram_digits};
ghost use Rattle.sealing.specs.Authenticator.{authenticator_of, authenticator_text, IsAuthenticator};
ghost use Rattle.sealing.specs.Fields.{FirstBad};
ghost use Rattle.sealing.specs.Hmac.{hmac};
ghost use Rattle.sealing.specs.Info.{IsInfo, info_text};
ghost use Rattle.sealing.specs.Keys.{expanded, key_number, number_without_parity};
ghost use Rattle.sealing.specs.Passwords.{password_key};
ghost use Rattle.sealing.specs.Request.{request_of, request_text};
ghost use Rattle.sealing.specs.Sealing.{opened, sealed};
ghost use Rattle.sealing.specs.Ticket.{ticket_of, ticket_text, IsTicket, ticket_names};
ghost use Rattle.sealing.specs.declared.authenticator.Authenticator.{Authenticator};
ghost use Rattle.sealing.specs.declared.fault.FieldFault.{FieldFault};
ghost use Rattle.sealing.specs.declared.fault.FieldFault.TheVariants.{Short};
ghost use Rattle.sealing.specs.declared.request.TicketReq.{TicketReq};
ghost use Rattle.sealing.specs.declared.ticket.Ticket.{Ticket};
ghost use Rattle.wire_base.specs.declared.name.AuthInfo.{AuthInfo};

use sealing::{Authenticator, FieldFault, Key7, Ticket, TicketReq};
use wire_base::{AuthInfo, Bytes, NoMemory};

/// As `apop_answer`.
pub fn apop_answer(challenge: &[u8], secret: &[u8]) -> [u8; 32]
    ensures { result ≡ apop_digits challenge.now secret.now }
{
    sealing::apop_answer(challenge, secret)
}

/// As `cram_answer`.
pub fn cram_answer(challenge: &[u8], secret: &[u8]) -> [u8; 32]
    ensures { result ≡ cram_digits challenge.now secret.now }
{
    sealing::cram_answer(challenge, secret)
}

/// As `seal_auth`.
pub fn seal_auth(a: &Authenticator, k: &Key7) -> [u8; 13]
    ensures value { result ≡ sealed k.now.0 (authenticator_text a.now) }
    ensures opened { authenticator_of (opened k.now.0 result) ≡ a.now }
{
    sealing::seal_auth(a, k)
}

/// As `open_auth`.
pub fn open_auth(input: &[u8; 13], k: &Key7) -> Authenticator
    ensures value { result ≡ authenticator_of (opened k.now.0 input.now) }
    ensures layout { (a : Authenticator)
        → (result ≡ a) ↔ IsAuthenticator (opened k.now.0 input.now) a }
{
    sealing::open_auth(input, k)
}

/// As `hmac_md5`.
pub fn hmac_md5(key: &[u8], text: &[u8]) -> [u8; 16]
    ensures { result ≡ hmac key.now text.now }
{
    sealing::hmac_md5(key, text)
}

/// As `write_info`.
pub fn write_info(i: &AuthInfo, out: &mut Bytes) -> Result<(), NoMemory>
    ensures ok { OnOk result (out.new ≡ out.old ++ info_text i.now) }
    ensures err { OnErr result (out.new ≡ out.old) }
    ensures read { IsInfo (info_text i.now) i.now }
{
    sealing::write_info(i, out)
}

/// As `read_info`.
pub fn read_info(input: &[u8]) -> Option<AuthInfo>
    ensures { (i : AuthInfo) → (result ≡ Some i) ↔ IsInfo input.now i }
{
    sealing::read_info(input)
}

/// As `expand56`.
pub fn expand56(key: &Key7) -> [u8; 8]
    ensures value { result ≡ expanded key.now.0 }
    ensures spelled { number_without_parity result ≡ key_number key.now.0 }
    ensures odd { All (λ byte. count_ones byte % 2 ≡ 1) result }
{
    sealing::expand56(key)
}

/// As `pass_to_key`.
pub fn pass_to_key(password: &[u8]) -> Key7
    ensures { result.0 ≡ password_key password.now }
{
    sealing::pass_to_key(password)
}

/// As `write_req`.
pub fn write_req(r: &TicketReq) -> [u8; 141]
    ensures value { result ≡ request_text r.now }
    ensures read { request_of result ≡ Ok r.now }
{
    sealing::write_req(r)
}

/// As `seal`.
pub fn seal(key: &Key7, text: &mut [u8])
    requires { 8 ≤ length text.old }
    ensures value { text.new ≡ sealed key.now.0 text.old }
    ensures undone { opened key.now.0 text.new ≡ text.old }
{
    sealing::seal(key, text)
}

/// As `open_seal`.
pub fn open_seal(key: &Key7, text: &mut [u8])
    requires { 8 ≤ length text.old }
    ensures value { text.new ≡ opened key.now.0 text.old }
    ensures undone { sealed key.now.0 text.new ≡ text.old }
{
    sealing::open_seal(key, text)
}

/// As `seal_ticket`.
pub fn seal_ticket(t: &Ticket, k: &Key7) -> [u8; 72]
    ensures value { result ≡ sealed k.now.0 (ticket_text t.now) }
    ensures opened { ticket_of (opened k.now.0 result) ≡ Ok t.now }
{
    sealing::seal_ticket(t, k)
}

/// As `open_ticket`.
pub fn open_ticket(input: &[u8; 72], k: &Key7) -> Result<Ticket, FieldFault>
    ensures value { result ≡ ticket_of (opened k.now.0 input.now) }
    ensures layout { (t : Ticket) → (result ≡ Ok t) ↔ IsTicket (opened k.now.0 input.now) t }
    ensures fault { (fault : FieldFault)
        → (result ≡ Err fault) ↔ FirstBad ticket_names (opened k.now.0 input.now) fault }
    ensures never_short { (need : ℕ) → result ≢ Err (Short need) }
{
    sealing::open_ticket(input, k)
}
