// What a search for a key comes to.
use key_ring::Key;

/// What a search among the keys of a moment comes to.
#[derive(Clone, Copy)]
pub enum Found<'a> {
    /// This key is to be used.
    Chosen(&'a Key),
    /// The user is to be asked whether this key may be used.
    AsksConsent(&'a Key),
    /// The user is to be asked for a key.
    AsksKey,
    /// There is a key, and it may not be used.
    Denied,
    /// There is no key.
    NoneServes,
}
