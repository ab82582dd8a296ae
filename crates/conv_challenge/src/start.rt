// What a template must be to start a conversation. Nothing here takes memory.
ghost use Rattle.std.specs.Prelude.{◌≡◌, true};
ghost use Rattle.attr_tuples.specs.Attributes.{is_tuple};
ghost use Rattle.conv_challenge.specs.Steps.{Sides, Speaks, Starts};

use crate::stage::{Proto, Side};
use attr_tuples::Tuple;
use roles::{StartFault, says, tells_secret};

/// The protocol and the side that a template starts, or the first rule of starts that it breaks.
#[tactic(auto, unfolding(crate::specs::Starts::start_fault, crate::specs::Starts::proto_of, crate::specs::Starts::side_of))]
pub fn read_start(template: &Tuple) -> Result<(Proto, Side), StartFault>
    ensures started { Starts result template.now }
    ensures valid { is_tuple template.now ≡ true }
{
    if tells_secret(template.attrs()) {
        return Err(StartFault::SecretValue);
    }
    let Some(proto) = read_proto(template) else {
        return Err(StartFault::UnknownProto);
    };
    let Some(side) = read_side(template) else {
        return Err(StartFault::UnknownRole);
    };
    Ok((proto, side))
}

#[tactic(auto, unfolding(crate::specs::Starts::proto_of))]
fn read_proto(template: &Tuple) -> Option<Proto>
    ensures { Speaks result template.now }
{
    let name = b"proto".as_slice();
    if says(template, name, b"cram".as_slice()) {
        Some(Proto::Cram)
    } else if says(template, name, b"apop".as_slice()) {
        Some(Proto::Apop)
    } else {
        None
    }
}

#[tactic(auto, unfolding(crate::specs::Starts::side_of))]
fn read_side(template: &Tuple) -> Option<Side>
    ensures { Sides result template.now }
{
    let name = b"role".as_slice();
    if says(template, name, b"server".as_slice()) {
        Some(Side::Server)
    } else if says(template, name, b"client".as_slice()) {
        Some(Side::Client)
    } else {
        None
    }
}
