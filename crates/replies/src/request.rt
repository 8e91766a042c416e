// Which datagrams an echo reply is made to.
//
// A request is answered where the relay delivers it here and now, and where its header, its destination and its message ask for a reply; what does not is passed
// over without a number. The awkward case is a broadcast of ours that is also the address of one of our ports: it names one system, and is answered.
ghost use Rattle.std.specs.Prelude.{◌≡◌, ◌≤◌, length};
ghost use Rattle.checks.specs.Told.{told};
ghost use Rattle.replies.specs.Request.{
  is_delivered,
  asks_in_header,
  is_many,
  is_owned,
  is_to_many,
  asking_by,
  asking_in,
  asking_of,
};

use address::{Address, Class};
use checks::Refusal;
use echo::{Kind, Message};
use header::{Fields, Header};
use verdict::{Local, Survey};

// The TP-ID of control messages.
pub const SCMP: u8 = 1;

// The numbers by which a request is told from others, and which its reply gives back.
#[derive(Clone, Copy)]
pub struct Request {
    pub identifier: u16,
    pub sequence: u16,
}

pub fn is_delivered(local: Local) -> bool
    ensures { result ≡ is_delivered local }
{
    match local {
        Local::No => false,
        Local::Delivered => true,
        Local::Unknown => false,
    }
}

// A control message that is not flooded, with a source to answer and a hop count.
pub fn asks_in_header(f: Fields) -> bool
    ensures { result ≡ asks_in_header f }
{
    f.tpid == SCMP
        && !meaning::flood::is_flooded(f)
        && header::flags::source_flag(f.addresses) != 0
        && f.hops.is_some()
}

fn is_many(c: Class) -> bool
    ensures { result ≡ is_many c }
{
    match c {
        Class::Invalid => false,
        Class::Unicast => false,
        Class::Multicast => true,
        Class::NetBroadcast => true,
        Class::DomainBroadcast => true,
        Class::ScpsBroadcast => true,
        Class::LimitedBroadcast => true,
    }
}

// Whether one of our ports has the address that the ports were asked for.
pub fn is_owned(s: Survey) -> bool
    ensures { result ≡ is_owned s }
{
    s.addressed != 0
}

// Whether the address names more than one system.
pub fn is_to_many(s: Survey, a: Address) -> bool
    ensures { result ≡ is_to_many s a }
{
    if is_owned(s) {
        return false;
    }
    if is_many(address::class_of(a)) {
        return true;
    }
    s.broadcast != 0
}

fn asking_by(kind: Kind, identifier: u16, sequence: u16) -> Option<Request>
    ensures { result ≡ asking_by kind identifier sequence }
{
    match kind {
        Kind::Request => Some(Request {
            identifier,
            sequence,
        }),
        Kind::Reply(_) => None,
    }
}

fn asking_in(r: Result<Message, Refusal>) -> Option<Request>
    ensures { result ≡ asking_in (told r) }
{
    match r {
        Ok(m) => asking_by(m.kind, m.identifier, m.sequence),
        Err(_) => None,
    }
}

// The request that the user data of a datagram is, if it is one.
pub fn asking_of(h: Header, octets: &[u8]) -> Option<Request>
    requires { (h.size ≤ h.length) × (h.length ≤ length octets.now) }
    ensures { result ≡ asking_of h octets.now }
{
    let from = h.size;
    let to = h.length;
    asking_in(echo::read_message(&octets[from..to]))
}
