// What a key tells a conversation.

use sealing::Key7;
use wire_base::Name;

/// What p9sk1 uses of a key that was found. It has no Debug, which would print the key.
#[derive(Clone, Copy)]
pub struct SkKey {
    pub des: Key7,
    /// The user of the key.
    pub user: Name<28>,
    /// The domain of the key; empty where it names none.
    pub dom: Name<48>,
}
