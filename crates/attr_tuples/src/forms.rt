// The forms of users and domains. Nothing here takes memory.
ghost use Rattle.std.specs.Prelude.{◌≡◌};
ghost use Rattle.std.specs.List.{list_all};
ghost use Rattle.attr_tuples.specs.Forms.{is_above_blank, is_dom_byte, is_user, is_dom};

/// How many bytes a user has at most.
const MOST_USER_BYTES: usize = 27;

/// How many bytes a domain has at most.
const MOST_DOM_BYTES: usize = 47;

/// Whether a text is a user: 1 to 27 bytes, each above the blank.
pub fn is_user(text: &[u8]) -> bool
    ensures { result ≡ is_user text.now }
{
    text.len() >= 1 && text.len() <= MOST_USER_BYTES && all_above_blank(text)
}

/// Whether a text is a domain: 1 to 47 bytes, each above the blank and none an `@`.
pub fn is_dom(text: &[u8]) -> bool
    ensures { result ≡ is_dom text.now }
{
    text.len() >= 1 && text.len() <= MOST_DOM_BYTES && all_dom_bytes(text)
}

fn all_above_blank(text: &[u8]) -> bool
    ensures { result ≡ list_all is_above_blank text.now }
{
    text.iter().all(|byte| *byte > b' ')
}

fn all_dom_bytes(text: &[u8]) -> bool
    ensures { result ≡ list_all is_dom_byte text.now }
{
    text.iter().all(|byte| *byte > b' ' && *byte != b'@')
}
