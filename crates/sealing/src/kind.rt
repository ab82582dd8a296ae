// The first byte of a message and of a sealed record (authsrv(6)).

/// A ticket request.
pub const AUTH_TREQ: u8 = 1;
/// A request to change a password.
pub const AUTH_PASS: u8 = 3;
/// An answer that grants what was asked.
pub const AUTH_OK: u8 = 4;
/// An answer that refuses it, with a text.
pub const AUTH_ERR: u8 = 5;
/// A request to check an answer of APOP.
pub const AUTH_APOP: u8 = 7;
/// An answer of a length that it tells.
pub const AUTH_OK_VAR: u8 = 9;
/// A request to check an answer of CRAM.
pub const AUTH_CRAM: u8 = 12;
/// A ticket for the server.
pub const AUTH_TS: u8 = 64;
/// A ticket for the client.
pub const AUTH_TC: u8 = 65;
/// An authenticator of the server.
pub const AUTH_AS: u8 = 66;
/// An authenticator of the client.
pub const AUTH_AC: u8 = 67;
/// A ticket for a change of a password.
pub const AUTH_TP: u8 = 68;
