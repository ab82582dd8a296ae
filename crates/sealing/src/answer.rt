// What a client answers to a challenge, by a secret that it shares with the server.

ghost use Rattle.std.specs.Prelude.{◌≡◌};
ghost use Rattle.hex.specs.Hex.{encode_lower};
ghost use Rattle.sealing.specs.Answer.{apop_digits, cram_digits};

use crate::hmac::hmac_md5;
use md5::{DIGEST_LEN, Digest, Md5};

// A digest as hexadecimal digits in lower case.
fn lower_digits(digest: &[u8; DIGEST_LEN]) -> [u8; 32]
    ensures { result ≡ encode_lower digest.now }
{
    let mut digits = [0u8; 32];
    hex::encode_to_slice(digest, &mut digits).unwrap();
    digits
}

/// The answer of APOP (RFC 1939, section 7): the MD5 digest of the challenge followed by the
/// secret, as 32 hexadecimal digits in lower case.
///
/// Any lengths are served.
#[tactic(auto, unfolding(crate::specs::Answer::apop_digits))]
pub fn apop_answer(challenge: &[u8], secret: &[u8]) -> [u8; 32]
    ensures { result ≡ apop_digits challenge.now secret.now }
{
    let digest = Md5::new_with_prefix(challenge)
        .chain_update(secret)
        .finalize();
    lower_digits(&digest)
}

/// The answer of CRAM-MD5 (RFC 2195): the HMAC-MD5 of the challenge under the secret, as 32
/// hexadecimal digits in lower case.
///
/// Any lengths are served. RFC 2195 puts the user's name and a blank before these digits, which is
/// left to the caller.
#[tactic(auto, unfolding(crate::specs::Answer::cram_digits))]
pub fn cram_answer(challenge: &[u8], secret: &[u8]) -> [u8; 32]
    ensures { result ≡ cram_digits challenge.now secret.now }
{
    lower_digits(&hmac_md5(secret, challenge))
}
