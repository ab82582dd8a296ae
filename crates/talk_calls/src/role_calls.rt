// The public calls of `roles`.
ghost use Rattle.std.specs.List.{list_any};
ghost use Rattle.std.specs.Prelude.{◌≡◌, true, codes};
ghost use Rattle.attr_tuples.specs.Attributes.{is_tuple};
ghost use Rattle.attr_tuples.specs.Matching.{value_of};
ghost use Rattle.key_lists.specs.Lists.{tells_secret};
ghost use Rattle.roles.specs.Clients.{is_elsewhere, is_refusal, proof_tests};
ghost use Rattle.roles.specs.Starts.{fits_start, Starts};
ghost use Rattle.wire_base.specs.Rules.{first_told};

use attr_tuples::{Attr, Tuple, value_of};
use roles::{Cause, Role, StartFault};
use sealing::Authenticator;

/// As `fits_start`.
pub fn fits_start(template: &Tuple) -> bool
    ensures { result ≡ fits_start template.now }
{
    roles::fits_start(template)
}

/// As `read_start`.
pub fn read_start(template: &Tuple) -> Result<Role, StartFault>
    ensures started { Starts result template.now }
    ensures valid { is_tuple template.now ≡ true }
{
    roles::read_start(template)
}

/// As `tells_secret`.
pub fn tells_secret(attrs: &[Attr]) -> bool
    ensures { result ≡ list_any tells_secret attrs.now }
{
    roles::tells_secret(attrs)
}

/// As `is_elsewhere`.
pub fn is_elsewhere(template: &Tuple, dom: &[u8]) -> bool
    ensures { result ≡ is_elsewhere (value_of (codes "dom") template.now) dom.now }
{
    roles::is_elsewhere(template, dom)
}

/// As `is_refusal`.
pub fn is_refusal(answer: &[u8]) -> bool
    ensures { result ≡ is_refusal answer.now }
{
    roles::is_refusal(answer)
}

/// As `test_proof`.
pub fn test_proof(kind: u8, challenge: &[u8; 8], proof: &Authenticator) -> Option<Cause>
    ensures { result ≡ first_told (proof_tests kind challenge.now proof.now) }
{
    roles::test_proof(kind, challenge, proof)
}
