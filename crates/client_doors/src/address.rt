// The address of a client.
ghost use Rattle.std.specs.Prelude.{◌≡◌};
ghost use Rattle.client_doors.specs.Inside.{is_same};

use std::net::{IpAddr, Ipv6Addr};
use wire_streams::{MemSource, SteadySource};

/// The address of a client, without its port: the 128 bits of one of IPv6, in which one of IPv4 stands in its mapped form,
/// `::ffff:a.b.c.d` (RFC 4291, 2.5.5.2).
#[derive(Clone, Copy, Debug)]
pub struct Address {
    bits: u128,
}

impl Address {
    ghost use Rattle.std.specs.Prelude.{◌≡◌};
    ghost use Rattle.client_doors.specs.Addresses.{bits_of};

    /// Its bits.
    pub fn bits(self) -> u128
        ensures { result ≡ self.bits }
    {
        self.bits
    }

    /// The address of a socket. One of IPv4 is the same whether it is mapped or not.
    #[tactic(auto, unfolding(std::specs::Net::Addr::ipv6_bits))]
    pub fn new(ip: IpAddr) -> Address
        ensures { result.bits ≡ bits_of ip }
    {
        match ip {
            IpAddr::V4(ip) => Address {
                bits: ip.to_ipv6_mapped().to_bits(),
            },
            IpAddr::V6(ip) => Address { bits: ip.to_bits() },
        }
    }

    /// The address as std writes it: one of IPv4 as such.
    pub fn ip(self) -> IpAddr {
        Ipv6Addr::from_bits(self.bits).to_canonical()
    }
}

/// Whether two clients have the same address, or neither has one.
pub fn is_same(first: Option<Address>, second: Option<Address>) -> bool
    ensures { result ≡ is_same first second }
{
    match (first, second) {
        (Some(first), Some(second)) => first.bits == second.bits,
        (None, None) => true,
        (Some(_), None) | (None, Some(_)) => false,
    }
}

/// What comes from a client that may have an address.
pub trait HasAddress {
    ghost use Rattle.std.specs.Prelude.{◌≡◌, Option};
    ghost use Rattle.client_doors.specs.declared.address.Address.{Address};

    /// The client's address; None where it has none, as over a Unix socket.
    ghost address_of: { Self → Option Address };

    /// The client's address.
    fn address(&self) -> Option<Address>
        ensures { result ≡ address_of self.now };
}

impl HasAddress for MemSource {
    ghost use Rattle.std.specs.Prelude.{None};

    ghost address_of = { λ _. None };

    fn address(&self) -> Option<Address> {
        None
    }
}

impl HasAddress for SteadySource {
    ghost use Rattle.std.specs.Prelude.{None};

    ghost address_of = { λ _. None };

    fn address(&self) -> Option<Address> {
        None
    }
}
