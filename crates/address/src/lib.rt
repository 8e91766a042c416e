// What the thirty-two bits of an address, a path address or a mask say.
//
// Each kind is a struct of its own, so that none is taken for another. An address stays one number, its first octet the
// highest: every test of the class table is then a quotient or a remainder by a power of 256.
// Three questions are answered, each for all 2^32 numbers, so that no public function refuses or requires anything:
// - The class of an address. The first octet alone gives the family; then the host part of a net is looked at, or x.y.z of
//   10.x.y.z. The awkward row is 255.255.255.255, one good address in an invalid range.
// - Whether a path address is valid. A path has no other class: 10.x.y.255 is a valid path and no broadcast.
// - Whether a mask is ones and then zeros, and how many ones. A mask stays a number too: of two such masks the one with
//   more ones is the greater, unsigned.
#![tactic(auto)]

ghost use Rattle.std.specs.Prelude.{◌≡◌, ◌<◌};
ghost use Rattle.address.specs.Class.{class_of, class_number, family_of, scps_class, net_class};
ghost use Rattle.address.specs.Path.{path_form, path_number};
ghost use Rattle.address.specs.Mask.{mask_form, ones_of};

// The address of an end system or of a group of them, in net 10 or another net of RFC 791.
#[derive(Clone, Copy, PartialEq, Eq)]
pub struct Address(pub u32);

#[derive(Clone, Copy, PartialEq, Eq)]
pub struct Mask(pub u32);

#[derive(Clone, Copy, PartialEq, Eq)]
pub struct PathAddress(pub u32);

// The caller's number of a datagram that waits. It is handed back as it came, and may repeat.
#[derive(Clone, Copy, PartialEq, Eq)]
pub struct Slot(pub u16);

#[derive(Clone, Copy, PartialEq)]
pub enum Class {
    Invalid,
    Unicast,
    Multicast,
    NetBroadcast,
    DomainBroadcast,
    ScpsBroadcast,
    LimitedBroadcast,
}

// The class as C and the traces have it.
impl From<Class> for u32 {
    ghost from_gives = { λ c n. n ≡ class_number c };

    fn from(c: Class) -> u32 {
        match c {
            Class::Invalid => 0,
            Class::Unicast => 1,
            Class::Multicast => 2,
            Class::NetBroadcast => 3,
            Class::DomainBroadcast => 4,
            Class::ScpsBroadcast => 5,
            Class::LimitedBroadcast => 6,
        }
    }
}

// How many values one, two and three octets have.
const ONE_OCTET: u32 = 0x100;

const TWO_OCTETS: u32 = 0x1_0000;

const THREE_OCTETS: u32 = 0x100_0000;

// What the first octet says. `Net` holds how many addresses a net of that class has.
#[derive(Clone, Copy)]
pub enum Family {
    Net(u32),
    Scps,
    Multicast,
    Invalid,
}

pub fn family_of(first: u32) -> Family
    ensures { result ≡ family_of first }
{
    match first {
        10 => Family::Scps,
        1..=126 => Family::Net(THREE_OCTETS),
        128..=191 => Family::Net(TWO_OCTETS),
        192..=223 => Family::Net(ONE_OCTET),
        224..=239 => Family::Multicast,
        _ => Family::Invalid,
    }
}

// 10.x.y.z, by x.y.z. The multicast flag is bit 7 of z, and bit 0 is the most significant.
fn scps_class(rest: u32) -> Class
    ensures { result ≡ scps_class rest }
{
    if rest == 0xFF_FFFF {
        return Class::ScpsBroadcast;
    }
    let z = rest % ONE_OCTET;
    if z == 255 {
        return Class::DomainBroadcast;
    }
    if z == 254 {
        return Class::Invalid;
    }
    if z % 2 == 1 {
        return Class::Multicast;
    }
    Class::Unicast
}

// An address in a net of so many: the broadcast is the last one, its host part all ones.
fn net_class(v: u32, hosts: u32) -> Class
    requires { 0 < hosts }
    ensures { result ≡ net_class v hosts }
{
    if v % hosts == hosts - 1 {
        return Class::NetBroadcast;
    }
    Class::Unicast
}

pub fn class_of(a: Address) -> Class
    ensures { result ≡ class_of a.0 }
{
    let v = a.0;
    match family_of(v / THREE_OCTETS) {
        Family::Net(hosts) => net_class(v, hosts),
        Family::Scps => scps_class(v % THREE_OCTETS),
        Family::Multicast => Class::Multicast,
        Family::Invalid => {
            if v == 0xFFFF_FFFF {
                return Class::LimitedBroadcast;
            }
            Class::Invalid
        }
    }
}

// An enum and no `bool`: what `hj_path` promises is the number of a form.
#[derive(Clone, Copy, PartialEq)]
pub enum PathForm {
    Invalid,
    Valid,
}

#[tactic(auto, unfolding(crate::specs::Path::path_form))]
pub fn path_form(p: PathAddress) -> PathForm
    ensures { result ≡ path_form p.0 }
{
    let v = p.0;
    if v / THREE_OCTETS != 10 || v % ONE_OCTET == 254 {
        return PathForm::Invalid;
    }
    PathForm::Valid
}

// The form as C and the traces have it.
impl From<PathForm> for u32 {
    ghost from_gives = { λ f n. n ≡ path_number f };

    fn from(f: PathForm) -> u32 {
        match f {
            PathForm::Invalid => 0,
            PathForm::Valid => 1,
        }
    }
}

// How many ones a mask has that is ones and then zeros; of any other mask nothing is said.
// The leading ones are the leading zeros of the complement. Where these are all the ones of a number, it is ones and then zeros.
pub fn mask_form(m: Mask) -> Option<u32>
    ensures { result ≡ mask_form m.0 }
{
    let ones = m.0.count_ones();
    if (!m.0).leading_zeros() != ones {
        return None;
    }
    Some(ones)
}

// The number of ones of any mask, wherever they stand.
pub fn count_ones(m: Mask) -> u32
    ensures { result ≡ ones_of m.0 }
{
    u32::count_ones(m.0)
}
