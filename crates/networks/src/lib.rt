// The networks that an address lies in, and their broadcasts.
//
// Four things are asked of a port's address: whether it begins with 10, its domain (in net 10 the first three octets), and the
// broadcasts of two networks that it lies in, the one that its class gives and the subnet that its mask cuts out. A broadcast is
// the last address of its network, the host bits all ones; it is made by `|`, which can neither wrap nor leave the network. Net 10
// counts as one network: its broadcast is 10.255.255.255, and so page 01's third form, "10.255.255.255 with a port in 10", is
// not made apart.
// The answers hold for all 2^32 numbers. The awkward ones stand only on a board that no history leaves: a mixed mask, of which
// every zero is a host bit, and an address of no network, multicast or invalid, which has no class broadcast.
#![tactic(auto)]

ghost use Rattle.std.specs.Prelude.{◌≡◌};
ghost use Rattle.networks.specs.Networks.{in_net10, domain_of, subnet_broadcast, class_broadcast};

use address::{Address, Family, Mask};

const ONE_OCTET: u32 = 0x100;

const THREE_OCTETS: u32 = 0x100_0000;

// Whether the address begins with 10.
pub fn in_net_10(a: Address) -> bool
    ensures { result ≡ in_net10 a }
{
    a.0 / THREE_OCTETS == 10
}

// The first three octets, as one number.
pub fn domain_of(a: Address) -> u32
    ensures { result ≡ domain_of a }
{
    a.0 / ONE_OCTET
}

// The address with ones wherever the mask has none.
#[tactic(auto, unfolding(crate::specs::Networks::subnet_broadcast))]
pub fn subnet_broadcast(a: Address, m: Mask) -> Address
    ensures { result ≡ subnet_broadcast a m }
{
    Address(a.0 | !m.0)
}

// The last address of the network that the class gives, where it gives one.
#[tactic(auto, using(address::proofs::Families::net_pos, crate::proofs::Classes::in_net_or), unfolding(crate::specs::Networks::class_broadcast, crate::specs::Networks::broadcast_in))]
pub fn class_broadcast(a: Address) -> Option<Address>
    ensures { result ≡ class_broadcast a }
{
    match address::family_of(a.0 / THREE_OCTETS) {
        Family::Net(hosts) => Some(Address(a.0 | (hosts - 1))),
        Family::Scps => Some(Address(0x0AFF_FFFF)),
        Family::Multicast | Family::Invalid => None,
    }
}
