// What goes out: an entry in the queue of each port that took one, and its header in the output.
//
// Both are done by the ruling's set of ports that took. Fullness is as it was before the call, and the ruling has counted on it: each
// queue that is put to here has room. Each port has a stretch of 50 octets of the output, since headers differ from port to port. The awkward case is a
// set that is empty, where nothing is put and no octet of the output is touched.
ghost use Rattle.std.specs.Prelude.{◌≡◌, ◌≤◌, ◌<◌, length};
ghost use Rattle.header.specs.Form.{places_of};
ghost use Rattle.header.specs.Onward.{renewal_of};
ghost use Rattle.header.specs.Limits.{longest_header};
ghost use Rattle.header.specs.Read.{header_of};
ghost use Rattle.next_leg.specs.Leg.{next_header, Sound};
ghost use Rattle.judge.specs.Ending.{output_room};
ghost use Rattle.sets.specs.Limits.{port_count};
ghost use Rattle.state.specs.Seen.{Board, on_seated};
ghost use Rattle.state.specs.Layout.{mission_words, decode};
ghost use Rattle.relay.specs.Outgoing.{entered, entered_if, entered_all, sent_below, chosen_if, chosen_below, Ready};

use header::limits::LONGEST_HEADER;
use header::{Header, Renewal};
use next_leg::Legs;
use queue::Entry;
use sets::indexes::PORTS;
use state::MissionWords;

// The entry in the queue of a port.
fn enter(mission: &mut MissionWords, p: usize, e: Entry)
    requires { p < port_count }
    ensures { (b : Board) → decode mission.new ≡ on_seated b (λ r. entered r p e) (decode mission.old) }
{
    let q = state_queues::queue_of(mission, p);
    let put = q.put(e);
    let next = put.queue;
    state_queues::put_queue(mission, p, next);
}

// The entry in the queue of a port, where the port is in the set.
fn enter_if(mission: &mut MissionWords, p: usize, took: u32, e: Entry)
    requires { p < port_count }
    ensures { (b : Board) → decode mission.new ≡ on_seated b (λ r. entered_if r took e p) (decode mission.old) }
{
    if took & sets::only_port(p as u32) == 0 {
        return;
    }
    enter(mission, p, e);
}

// The entry in the queue of each port of the set.
pub fn enter_all(mission: &mut MissionWords, took: u32, e: Entry)
    ensures { (b : Board) → decode mission.new ≡ on_seated b (λ r. entered_all r took e port_count) (decode mission.old) }
{
    for p in 0..PORTS {
        enter_if(mission, p, took, e);
    }
}

// The header of a port in its stretch of the output, where the port took an entry: that of the near ones, or that of the others.
fn send_if(p: usize, took: u32, far: u32, near: &[u8], other: &[u8], output: &mut [u8])
    requires { (p < port_count) × ((output_room ≤ length output.old) × ((length near.now ≤ longest_header) × (length other.now ≤ longest_header))) }
    ensures { output.new ≡ chosen_if took far near.now other.now p output.old }
{
    if (took >> p as u32) % 2 != 1 {
        return;
    }
    let from = LONGEST_HEADER * p;
    let to = from + LONGEST_HEADER;
    if (far >> p as u32) % 2 == 1 {
        octets::put_front(other, &mut output[from..to]);
        return;
    }
    octets::put_front(near, &mut output[from..to]);
}

// The headers of all ports that took an entry.
fn send_each(took: u32, far: u32, near: &[u8], other: &[u8], output: &mut [u8])
    requires { (output_room ≤ length output.old) × ((length near.now ≤ longest_header) × (length other.now ≤ longest_header)) }
    ensures { output.new ≡ chosen_below took far near.now other.now output.old port_count }
{
    for p in 0..PORTS {
        send_if(p, took, far, near, other, output);
    }
}

// Makes a header ready, where some port is to get it; answers its length.
fn make_if(
    ports: u32,
    far: bool,
    legs: Legs,
    header: Header,
    renewal: Renewal,
    octets: &[u8],
    out: &mut [u8],
) -> usize
    requires { Sound header × ((longest_header ≤ length out.old) × ((header ≡ header_of octets.now) × (((places_of octets.now).size ≤ length octets.now) × (renewal ≡ renewal_of octets.now)))) }
    ensures { Ready ports (next_header far legs.arrival.0 legs.code octets.now) result out.new }
{
    if ports == 0 {
        return 0;
    }
    let arrival = legs.arrival;
    next_leg::write_next(far, arrival, legs.code, header, renewal, octets, out)
}

// The headers for all ports that took an entry. There are two at the most, and each is made once.
pub fn send_all(
    took: u32,
    legs: Legs,
    header: Header,
    renewal: Renewal,
    octets: &[u8],
    output: &mut [u8],
)
    requires { (output_room ≤ length output.old)
        × (Sound header × ((header ≡ header_of octets.now) × (((places_of octets.now).size ≤ length octets.now) × (renewal ≡ renewal_of octets.now)))) }
    ensures { output.new ≡ sent_below took legs octets.now output.old port_count }
{
    if took == 0 {
        return;
    }
    let mut near = [0u8; LONGEST_HEADER];
    let near_size = make_if(
        verdict::except(took, legs.far),
        false,
        legs,
        header,
        renewal,
        octets,
        &mut near,
    );
    let mut other = [0u8; LONGEST_HEADER];
    let other_size = make_if(legs.far, true, legs, header, renewal, octets, &mut other);
    send_each(
        took,
        legs.far,
        &near[..near_size],
        &other[..other_size],
        output,
    );
}
