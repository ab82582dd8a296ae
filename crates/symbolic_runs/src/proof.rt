// Derivations step by step.
use crate::kind::MacKind;
use wire_base::{Bytes, List};

/// Places, counted from 0.
pub type Places = List<u32>;

/// One step of a derivation. The number of `Known` is a place among what is known, and `index` a place in a `Cat`; all
/// other numbers name earlier steps. All count from 0.
#[derive(Debug, Drop)]
pub enum ProofStep {
    /// A term that is known.
    Known(u32),
    /// Bytes that anybody may know.
    Public(Bytes),
    /// The conclusions of these steps, one behind the other.
    Join(Places),
    /// The piece at a place of a `Cat`.
    Part {
        of: u32,
        index: u32,
    },
    /// The seal of a body under a key.
    SealUp {
        key: u32,
        body: u32,
    },
    /// The body of a seal whose key is there.
    OpenUp {
        seal: u32,
        key: u32,
    },
    /// The digest of a body under a secret.
    MacUp {
        kind: MacKind,
        secret: u32,
        body: u32,
    },
}

/// A derivation: its steps, in order.
pub type Proof = List<ProofStep>;
