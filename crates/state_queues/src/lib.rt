// A mission's state in lent words: its queues of the ports.
//
// As in the crate `state_mission`: the caller lends the whole state, each function works on the words of one queue, and each promise is over
// `decode` alone. A queue is 33 words: its 32 entries, free ones too, and then how many of them wait. Slot and precedence of an entry,
// of sixteen bits each, share a word: nothing is lost either way, and on the machines that we know a queue is copied as it stands.
#![tactic(auto)]

ghost use Rattle.std.specs.Prelude.{◌≡◌, ◌<◌, length};
ghost use Rattle.sets.specs.Limits.{port_count};
ghost use Rattle.state.specs.Layout.{mission_words, decode, entry_of_word, entry_word, queue_of, queue_words};
ghost use Rattle.state.specs.Relay.{queue_at, put_queue};
ghost use Rattle.state.specs.Seen.{on_mission};

use address::Slot;
use queue::{Entry, Queue};
use state::MissionWords;

// Where the section begins.
const QUEUES_AT: usize = 129;

const QUEUE_WORDS: usize = 33;

// How many places for entries a queue has.
const ENTRIES: usize = queue::ENTRIES as usize;

// How many numbers sixteen bits hold.
const SLOTS: u32 = 65536;

fn entry_of(w: u32) -> Entry
    ensures { result ≡ entry_of_word w }
{
    Entry {
        slot: Slot((w % SLOTS) as u16),
        precedence: (w / SLOTS) as u16,
    }
}

fn entry_word(e: Entry) -> u32
    ensures { result ≡ entry_word e }
{
    e.slot.0 as u32 + e.precedence as u32 * SLOTS
}

fn read_queue(s: &[u32]) -> Queue
    requires { length s.now ≡ 33 }
    ensures { result ≡ queue_of s.now }
{
    let mut entries = [Entry {
        slot: Slot(0),
        precedence: 0,
    }; ENTRIES];
    for i in 0..ENTRIES {
        entries[i] = entry_of(s[i]);
    }
    Queue {
        entries,
        count: s[ENTRIES],
    }
}

fn write_queue(s: &mut [u32], q: Queue)
    requires { length s.old ≡ 33 }
    ensures { s.new ≡ queue_words q }
{
    for i in 0..ENTRIES {
        s[i] = entry_word(q.entries[i]);
    }
    s[ENTRIES] = q.count;
}

pub fn queue_of(mission: &MissionWords, p: usize) -> Queue
    requires { p < port_count }
    ensures { result ≡ queue_at (decode mission.now).mission p }
{
    let from = QUEUES_AT + p * QUEUE_WORDS;
    read_queue(&mission[from..from + QUEUE_WORDS])
}

fn read_count(s: &[u32]) -> u32
    requires { length s.now ≡ 33 }
    ensures { result ≡ (queue_of s.now).count }
{
    s[ENTRIES]
}

// How many wait on a port, as its queue says.
pub fn count_of(mission: &MissionWords, p: usize) -> u32
    requires { p < port_count }
    ensures { result ≡ (queue_at (decode mission.now).mission p).count }
{
    let from = QUEUES_AT + p * QUEUE_WORDS;
    read_count(&mission[from..from + QUEUE_WORDS])
}

pub fn put_queue(mission: &mut MissionWords, p: usize, q: Queue)
    requires { p < port_count }
    ensures { decode mission.new ≡ on_mission (λ m. put_queue m p q) (decode mission.old) }
{
    let from = QUEUES_AT + p * QUEUE_WORDS;
    write_queue(&mut mission[from..from + QUEUE_WORDS], q);
}
