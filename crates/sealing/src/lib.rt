//! Keys of seven bytes, the key that a password stands for, and the sealing of a text in place by DES in blocks
//! that overlap by one byte; the records that Plan 9's authentication protocols send under such keys: the ticket
//! request, the ticket, the authenticator, and the authinfo that ends a conversation; and the answers that prove
//! knowledge of a shared secret by MD5: APOP's (RFC 1939) and CRAM-MD5's (RFC 2195), over HMAC-MD5 (RFC 2104).
#![tactic(auto)]

mod answer;
mod authenticator;
mod fault;
mod field;
mod hmac;
mod info;
mod keys;
mod kind;
mod laws;
mod passwords;
mod request;
mod sealing;
mod ticket;
mod writer;

pub use answer::{apop_answer, cram_answer};
pub use authenticator::{Authenticator, open_auth, seal_auth};
pub use fault::FieldFault;
pub use hmac::hmac_md5;
pub use info::{read_info, write_info};
pub use keys::{Key7, expand56};
pub use kind::{
    AUTH_AC, AUTH_APOP, AUTH_AS, AUTH_CRAM, AUTH_ERR, AUTH_OK, AUTH_OK_VAR, AUTH_PASS, AUTH_TC,
    AUTH_TP, AUTH_TREQ, AUTH_TS,
};
pub use laws::{kinds_are_those_of_the_manual, what_is_asked_is_read, what_is_sealed_is_opened};
pub use passwords::pass_to_key;
pub use request::{TicketReq, read_req, write_req};
pub use sealing::{open_seal, seal};
pub use ticket::{Ticket, open_ticket, seal_ticket};
pub use writer::RecordWriter;
