// A text that several fids read.
ghost use Rattle.std.specs.Prelude.{◌≡◌, IfOk};

use std::alloc::Global;
use std::marker::Model;
use std::sync::Arc;
use wire_base::{Bytes, NoMemory};

/// A text that may have several owners; it lives until the last of them is gone.
#[derive(Drop)]
pub struct SharedText {
    bytes: Arc<Bytes>,
}

impl Model for SharedText {
    ghost use Rattle.std.specs.Prelude.{ℕ, List};
    ghost use Rattle.std.specs.Arc.{arc_value};

    ghost Value = { List ℕ };

    ghost view = { λ text. arc_value text.bytes };
}

impl SharedText {
    /// A text with one owner.
    pub fn new(alloc: Global, bytes: Bytes) -> Result<SharedText, NoMemory>
        ensures { IfOk result (λ text. text ≡ bytes) }
    {
        let bytes = Arc::new(alloc, bytes)?;
        Ok(SharedText { bytes })
    }

    /// One more owner of the same text.
    pub fn share(&self) -> Result<SharedText, NoMemory>
        ensures { IfOk result (λ text. text ≡ self.now) }
    {
        let bytes = Arc::try_clone(&self.bytes)?;
        Ok(SharedText { bytes })
    }

    pub fn as_slice(&self) -> &[u8]
        ensures { result.now ≡ self.now }
    {
        self.bytes.as_slice()
    }

    // Whether there is no other owner.
    pub(crate) fn is_alone(&self) -> bool {
        Arc::strong_count(&self.bytes) == 1
    }
}
