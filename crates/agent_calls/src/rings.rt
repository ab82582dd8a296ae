// The public calls of `key_ring`.
ghost use Rattle.std.specs.Prelude.{◌≡◌, ◌≤◌, ◌<◌, ◌+◌, ◌^◌, length, option_map, IfOk, OnOk, OnErr, Ok, MatchOption, Err, IfSome, true, find, option_copied, ◌++◌, IsOk};
ghost use Rattle.key_lists.specs.CtlLines.{after_lines, lines_fault, lines_of};
ghost use Rattle.key_lists.specs.Edits.{IsOrdered};
ghost use Rattle.key_lists.specs.Listing.{list_text, offers, offers_text};
ghost use Rattle.key_lists.specs.Lists.{most_keys, delete_fault, deleted, matching, serves, first_serving, next_serving};
ghost use Rattle.key_ring.specs.Faults.{line_text, has_no_tuple};
ghost use Rattle.key_ring.specs.Serials.{serials_of};
ghost use Rattle.key_ring.specs.Switches.{switches};

use attr_tuples::Tuple;
use key_lists::DeleteFault;
use key_ring::{Key, KeyRing, ListedRing, Written};
use std::alloc::Global;
use wire_base::{Bytes, NoMemory};

/// As `ListedRing::write`.
pub fn listed_ring_write(
    listed_ring: &mut ListedRing,
    alloc: Global,
    content: &[u8],
) -> Result<Written, NoMemory>
    requires { listed_ring.old.ever_added + length content.now < 2 ^ 64 }
    ensures keys { OnOk result (listed_ring.new ≡ after_lines listed_ring.old (lines_of content.now)) }
    ensures told { IfOk result (λ w. option_map line_text w.fault
        ≡ lines_fault listed_ring.old (lines_of content.now)) }
    ensures switches { IfOk result (λ w. w.switches
        ≡ switches listed_ring.old (lines_of content.now)) }
    ensures few { listed_ring.new.ever_added ≤ listed_ring.old.ever_added + length content.now }
    ensures err { OnErr result (listed_ring.new ≡ listed_ring.old) }
{
    listed_ring.write(alloc, content)
}

/// As `KeyRing::len`.
pub fn ring_len(ring: &KeyRing) -> usize
    ensures value { result ≡ length ring.now.keys }
    ensures ordered { IsOrdered ring.now }
    ensures few { length ring.now.keys ≤ most_keys }
{
    ring.len()
}

/// As `KeyRing::delete`.
pub fn ring_delete(ring: &mut KeyRing, template: &Tuple) -> Result<usize, DeleteFault>
    ensures answer { MatchOption (delete_fault template.now ring.old) (result
        ≡ Ok (matching template.now ring.old)) (λ fault. result ≡ Err fault) }
    ensures deleted { OnOk result (ring.new ≡ deleted template.now ring.old) }
    ensures unchanged { OnErr result (ring.new ≡ ring.old) }
{
    ring.delete(template)
}

/// As `KeyRing::find`.
pub fn ring_find<'x>(ring: &'x KeyRing, template: &Tuple, role: &[u8]) -> Option<&'x Key>
    ensures value { option_copied result ≡ first_serving template.now role.now ring.now }
    ensures serves { IfSome (option_copied result) (λ key.
        serves template.now role.now key ≡ true) }
{
    ring.find(template, role)
}

/// As `KeyRing::next_after`.
pub fn ring_next_after<'x>(
    ring: &'x KeyRing,
    template: &Tuple,
    role: &[u8],
    serial: u64,
) -> Option<&'x Key>
    ensures value { option_copied result
        ≡ next_serving template.now role.now serial ring.now }
    ensures serves { IfSome (option_copied result) (λ key.
        serves template.now role.now key ≡ true) }
    ensures greater { IfSome (option_copied result) (λ key. serial < key.serial) }
{
    ring.next_after(template, role, serial)
}

/// As `KeyRing::serials_of`.
pub fn ring_serials_of<'x>(ring: &'x KeyRing, proto: &[u8], dom: Option<&[u8]>) -> &'x [u64]
    ensures { result.now ≡ serials_of proto.now (option_map (λ dom. dom.now) dom.entry) ring.now }
{
    ring.serials_of(proto, dom)
}

/// As `KeyRing::list_text`.
pub fn ring_list_text(ring: &KeyRing, out: &mut Bytes) -> Result<(), NoMemory>
    ensures ok { OnOk result (out.new ≡ out.old ++ list_text ring.now) }
    ensures err { OnErr result (out.new ≡ out.old) }
{
    ring.list_text(out)
}

/// As `KeyRing::offers`.
pub fn ring_offers(
    ring: &KeyRing,
    template: &Tuple,
    role: &[u8],
    out: &mut Bytes,
) -> Result<usize, NoMemory>
    ensures ok { OnOk result (out.new
        ≡ out.old ++ offers_text (offers template.now role.now ring.now)) }
    ensures count { IfOk result
        (λ count. count ≡ length (offers template.now role.now ring.now)) }
    ensures err { OnErr result (out.new ≡ out.old) }
{
    ring.offers(template, role, out)
}

/// As `write_ctl`.
pub fn write_ctl(alloc: Global, ring: &mut KeyRing, content: &[u8]) -> Result<Written, NoMemory>
    requires { ring.old.ever_added + length content.now < 2 ^ 64 }

    ensures keys { OnOk result (ring.new ≡ after_lines ring.old (lines_of content.now)) }
    ensures told { IfOk result (λ w. option_map line_text w.fault
        ≡ lines_fault ring.old (lines_of content.now)) }
    ensures switches { IfOk result (λ w. w.switches
        ≡ switches ring.old (lines_of content.now)) }

    ensures few { ring.new.ever_added ≤ ring.old.ever_added + length content.now }
    ensures takes_none { has_no_tuple (lines_of content.now) ≡ true → IsOk result }

    ensures err { OnErr result (ring.new ≡ ring.old) }
{
    key_ring::write_ctl(alloc, ring, content)
}
