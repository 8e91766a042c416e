// The limits of a header and of its datagram, and the checks that they give.
//
// Three numbers are bound together: the length field has 13 bits, the longest header has 50 octets, and the user data has the rest, so
// that no header that can be built makes a datagram too long. Each stands here once. The awkward case is a short header: there would be
// room for more data behind it, and page 01 refuses that all the same.
ghost use Rattle.std.specs.Prelude.{◌≡◌};
ghost use Rattle.checks.specs.Order.{check_of};
ghost use Rattle.header.specs.Limits.{lacks_room, too_much_data};

use checks::Check;

// The octets of the longest header: the room that every output has.
pub const LONGEST_HEADER: usize = 50;

// A datagram's length is below this.
pub const LENGTH_LIMIT: usize = 8192;

// The most octets of user data.
pub const MOST_DATA: usize = LENGTH_LIMIT - 1 - LONGEST_HEADER;

// The output has room for the longest header.
pub fn check_room(room: usize) -> Check
    ensures { result ≡ check_of (lacks_room room) }
{
    if room < LONGEST_HEADER {
        return Check::Failed;
    }
    Check::Passed
}

// The user data is within its limit.
pub fn check_data(n: usize) -> Check
    ensures { result ≡ check_of (too_much_data n) }
{
    if MOST_DATA < n {
        return Check::Failed;
    }
    Check::Passed
}
