// What a template must be to start a conversation. Nothing here takes memory.
ghost use Rattle.std.specs.Prelude.{◌≡◌, true, codes, length};
ghost use Rattle.std.specs.List.{list_any};
ghost use Rattle.attr_tuples.specs.Attributes.{is_tuple};
ghost use Rattle.attr_tuples.specs.Forms.{is_user};
ghost use Rattle.key_lists.specs.Lists.{tells_secret};
ghost use Rattle.roles.specs.Starts.{Speaks, Starts, StartsAs, fits_start, others, says};

use crate::answer::StartFault;
use crate::stage::Role;
use attr_tuples::{Attr, Tuple, is_given, is_named, is_secret_name, is_user, value_of};
use wire_base::{Name, Text};

/// How many attributes beside those named `dom` a template may have that starts a conversation.
pub const MOST_OTHERS: usize = 32;

/// Whether a template has room for what a role asks beside it.
pub fn fits_start(template: &Tuple) -> bool
    ensures { result ≡ fits_start template.now }
{
    count_others(template.attrs()) <= MOST_OTHERS
}

fn count_others(attrs: &[Attr]) -> usize
    ensures { result ≡ length (others attrs.now) }
{
    attrs
        .iter()
        .filter(|attr| !is_named(attr, b"dom".as_slice()))
        .count()
}

/// The role of p9sk1 that a template starts, or the first rule of starts that it breaks.
#[tactic(auto, unfolding(crate::specs::Starts::start_fault, crate::specs::Starts::fault_of))]
pub fn read_start(template: &Tuple) -> Result<Role, StartFault>
    ensures started { Starts result template.now }
    ensures valid { is_tuple template.now ≡ true }
{
    read_role(template, b"p9sk1".as_slice())
}

/// The role of this protocol that a template starts, or the first rule of starts that it breaks.
#[tactic(auto, unfolding(crate::specs::Starts::fault_of, crate::specs::Starts::role_of))]
pub fn read_role(template: &Tuple, protocol: &[u8]) -> Result<Role, StartFault>
    ensures started { StartsAs protocol.now result template.now }
    ensures valid { is_tuple template.now ≡ true }
{
    let role = b"role".as_slice();
    if tells_secret(template.attrs()) {
        Err(StartFault::SecretValue)
    } else if !says(template, b"proto".as_slice(), protocol) {
        Err(StartFault::UnknownProto)
    } else if says(template, role, b"speakfor".as_slice()) {
        read_spoken_for(template)
    } else if says(template, role, b"server".as_slice()) {
        Ok(Role::Server)
    } else if says(template, role, b"client".as_slice()) {
        Ok(Role::Client)
    } else {
        Err(StartFault::UnknownRole)
    }
}

/// Whether a secret attribute has a value.
pub fn tells_secret(attrs: &[Attr]) -> bool
    ensures { result ≡ list_any tells_secret attrs.now }
{
    attrs.iter().any(|attr| is_secret_name(attr.name.as_slice()) && is_given(&attr.value))
}

/// Whether the first value that a template gives to a name is this text.
pub fn says(template: &Tuple, name: &[u8], text: &[u8]) -> bool
    ensures { result ≡ says name.now text.now template.now }
{
    match value_of(template, name) {
        Some(given) => given.as_slice() == text,
        None => false,
    }
}

// The user that is spoken for, where it is one.
fn read_spoken_for(template: &Tuple) -> Result<Role, StartFault>
    ensures { Speaks result template.now }
{
    match value_of(template, b"user".as_slice()) {
        Some(user) if is_user(user.as_slice()) => Ok(Role::Speakfor {
            user: make_name(user),
        }),
        _ => Err(StartFault::BadUser),
    }
}

#[tactic(auto, using(crate::proofs::StartLemmas::user_is_name))]
fn make_name(user: &Text) -> Name<28>
    requires { is_user user.now ≡ true }
    ensures { result ≡ user.now }
{
    match Name::from_text(user.as_slice()) {
        Some(name) => name,
        None => unreachable!(),
    }
}
