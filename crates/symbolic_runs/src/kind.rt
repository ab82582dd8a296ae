// The two digests that answer a challenge.

/// Which digest of a challenge and a password a term is: APOP's (RFC 1939) or CRAM-MD5's (RFC 2195).
#[derive(Clone, Copy, Debug, PartialEq, Eq)]
pub enum MacKind {
    Apop,
    Cram,
}
