// What C calls of `harpjuniper_address`, by its C name: each function calls the one there, and promises the same.
ghost use Rattle.std.specs.Prelude.{◌≡◌};
ghost use Rattle.address.specs.Class.{class_of, class_number};
ghost use Rattle.address.specs.Path.{path_form, path_number};
ghost use Rattle.checksum.specs.Sum.{checksum_of};

// The class of a four-octet address.
#[unsafe(no_mangle)]
pub extern "C" fn hj_class(address: u32) -> u32
    ensures { result ≡ class_number (class_of address) }
{
    harpjuniper_address::hj_class(address)
}

// Whether a path address is valid.
#[unsafe(no_mangle)]
pub extern "C" fn hj_path(path: u32) -> u32
    ensures { result ≡ path_number (path_form path) }
{
    harpjuniper_address::hj_path(path)
}

// The checksum of RFC 1071.
#[unsafe(no_mangle)]
pub extern "C" fn hj_checksum(octets: &[u8]) -> u16
    ensures { result ≡ checksum_of octets.now }
{
    harpjuniper_address::hj_checksum(octets)
}
