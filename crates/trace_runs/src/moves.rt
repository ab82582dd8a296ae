// What a conversation is and does, with the trees of its messages.
ghost use Rattle.std.specs.Prelude.{◌≡◌, option_map};
ghost use Rattle.symbolic_runs.specs.Views.{tree};

use symbolic_runs::{MacKind, Term};
use wire_base::Bytes;

/// The part that a conversation plays.
#[derive(Clone, Copy, Debug, PartialEq, Eq)]
pub enum Role {
    /// A p9sk1 client, for itself or speaking for another.
    Client,
    Server,
    MailClient(MacKind),
    MailServer(MacKind),
}

/// One move of a conversation.
#[derive(Drop)]
pub enum Move {
    /// A message came from the network.
    Takes(Term),
    /// The authentication server's answer came.
    Hears(Term),
    /// A message was given.
    Gives(Term),
    /// A question for the authentication server was given.
    Asks(Term),
    /// It accepted this user, by the ticket's field of 28 bytes.
    Accepts(Bytes),
    /// A test failed.
    Fails,
}

impl Move {
    ghost use Rattle.trace_runs.specs.Rows.{accepted_of, asked_of, given_of, heard_of, taken_of};
    ghost use Rattle.trace_runs.specs.Views.{move_of};

    /// The message that came from the network.
    pub fn taken(&self) -> Option<&Term>
        ensures { option_map (λ term. tree term.now) result ≡ taken_of (move_of self.now) }
    {
        match self {
            Move::Takes(term) => Some(term),
            Move::Hears(_) | Move::Gives(_) | Move::Asks(_) | Move::Accepts(_) | Move::Fails =>
                None,
        }
    }

    /// The authentication server's answer that came.
    pub fn heard(&self) -> Option<&Term>
        ensures { option_map (λ term. tree term.now) result ≡ heard_of (move_of self.now) }
    {
        match self {
            Move::Hears(term) => Some(term),
            Move::Takes(_) | Move::Gives(_) | Move::Asks(_) | Move::Accepts(_) | Move::Fails =>
                None,
        }
    }

    /// The message that was given.
    pub fn given(&self) -> Option<&Term>
        ensures { option_map (λ term. tree term.now) result ≡ given_of (move_of self.now) }
    {
        match self {
            Move::Gives(term) => Some(term),
            Move::Takes(_) | Move::Hears(_) | Move::Asks(_) | Move::Accepts(_) | Move::Fails =>
                None,
        }
    }

    /// The question that was given.
    pub fn asked(&self) -> Option<&Term>
        ensures { option_map (λ term. tree term.now) result ≡ asked_of (move_of self.now) }
    {
        match self {
            Move::Asks(term) => Some(term),
            Move::Takes(_) | Move::Hears(_) | Move::Gives(_) | Move::Accepts(_) | Move::Fails =>
                None,
        }
    }

    /// The field of the user that was accepted.
    pub fn accepted(&self) -> Option<&[u8]>
        ensures { option_map (λ user. user.now) result ≡ accepted_of (move_of self.now) }
    {
        match self {
            Move::Accepts(user) => Some(user.as_slice()),
            Move::Takes(_) | Move::Hears(_) | Move::Gives(_) | Move::Asks(_) | Move::Fails => None,
        }
    }
}

/// What a conversation has of its own: its random word, its holder's key and its holder's password.
#[derive(Drop)]
pub struct Own {
    pub word: Term,
    pub key: Term,
    pub password: Term,
}

/// The names that a conversation puts into a request, each as its whole field.
#[derive(Clone, Copy)]
pub struct Names<'a> {
    pub authid: &'a [u8],
    pub authdom: &'a [u8],
    pub hostid: &'a [u8],
    pub uid: &'a [u8],
}
