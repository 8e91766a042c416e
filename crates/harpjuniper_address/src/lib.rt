// What C calls on an address, a path or octets alone: the class, the form of a path, the checksum.
//
// Nothing is lent to be written, and nothing is required: every number has a class, every path a form, and octets of any number, none
// among them, have a checksum.
#![tactic(auto)]

ghost use Rattle.std.specs.Prelude.{◌≡◌};
ghost use Rattle.address.specs.Class.{class_of, class_number};
ghost use Rattle.address.specs.Path.{path_form, path_number};
ghost use Rattle.checksum.specs.Sum.{checksum_of};

use address::{Address, PathAddress};

// The class of a four-octet address.
#[unsafe(no_mangle)]
pub extern "C" fn hj_class(address: u32) -> u32
    ensures { result ≡ class_number (class_of address) }
{
    address::class_of(Address(address)).into()
}

// Whether a path address is valid.
#[unsafe(no_mangle)]
pub extern "C" fn hj_path(path: u32) -> u32
    ensures { result ≡ path_number (path_form path) }
{
    address::path_form(PathAddress(path)).into()
}

// The checksum of RFC 1071.
#[unsafe(no_mangle)]
pub extern "C" fn hj_checksum(octets: &[u8]) -> u16
    ensures { result ≡ checksum_of octets.now }
{
    checksum::checksum(octets)
}
