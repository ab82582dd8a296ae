// What a conversation needs from outside, and how it ends.

use crate::answer::Cause;
use attr_tuples::Tuple;
use wire_base::{AuthInfo, Bytes, List, Shape};

/// Templates, in order.
pub type Tuples = List<Tuple>;

/// What a conversation needs before it can go on.
#[derive(Drop)]
pub enum Need {
    Nothing,
    /// A key that matches this template.
    Key(Tuple),
    /// A list of what the keys that serve this template offer. Starts alone need it.
    Offers(Tuple),
    /// The place of the first of these templates that a key serves, or of the first at all where none is served. There
    /// is at least one.
    Pick(Tuples),
    /// The answer of the authentication server to this request, which ends as the shape says.
    Exchange { request: Bytes, shape: Shape },
}

/// How a conversation stands, as to its end. It has no Debug, which would print the secret of an authinfo.
#[derive(Clone, Copy)]
pub enum Outcome {
    /// It hasn't come to its end.
    Running,
    /// It accepted whom the other side is.
    Accepted(AuthInfo),
    /// It is at its end without having learnt who the other side is.
    Finished,
    Broken(Cause),
}
