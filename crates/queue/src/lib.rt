// The queue of a port: the entries that wait there, in the order in which they go out.
//
// The waiting entries stand at the front of thirty-two places, the next one first, and a count says how many they are. All
// ordering is done when an entry comes: it goes just ahead of the first entry with lower precedence, else last. Taking is then
// no more than handing out the first.
// The places behind the waiting entries belong to the state too. A take moves all places up by one and lets a free one (slot 0,
// precedence 0) in at the end, so that in every queue that puts and takes make of a fresh one they are free. Two such queues in
// which the same entries wait are equal.
// The awkward case is a queue that no call leaves, since the caller keeps the state and may lend any. A count over 32 does not
// say which entries wait: such a queue takes nothing in, hands nothing out and stays as it is. Entries out of order go out as
// they stand, and a newcomer still goes just ahead of the first lower one. Whatever lies behind the waiting entries moves up
// with them at a take, and a put writes over the first place of it alone.
#![tactic(auto)]

ghost use Rattle.std.specs.Prelude.{◌≡◌, ◌++◌, ◌+◌, ◌<◌, take, drop, ltb, length, position, unwrap_or};
ghost use Rattle.queue.specs.declared.Entry.{Entry};
ghost use Rattle.queue.specs.Queue.{entry_places, insert, moved_up, fresh, put_of, take_of};

use address::Slot;

// What waits for a datagram: the caller's number of it and its precedence. Together they have thirty-two bits, one word of the
// state.
#[derive(Clone, Copy)]
pub struct Entry {
    pub slot: Slot,
    pub precedence: u16,
}

// How many entries a queue holds.
pub const ENTRIES: u32 = 32;

const PLACES: usize = ENTRIES as usize;

const LAST: usize = PLACES - 1;

// A fixed array and a count, and no `Vec`: the relay has fixed memory, and no heap.
#[derive(Clone, Copy)]
pub struct Queue {
    pub entries: [Entry; PLACES],
    pub count: u32,
}

// Whether the newcomer was taken in. The queue stands first in an answer, aligned as in the state: that spares copies.
// A flag beside the queue, and no `Result`: our rules name the form, that put returns the queue with the answer.
#[derive(Clone, Copy)]
pub struct Put {
    pub queue: Queue,
    pub took: bool,
}

// The entry that was handed out, if one waited, and the queue without it.
#[derive(Clone, Copy)]
pub struct Taken {
    pub queue: Queue,
    pub head: Option<Entry>,
}

const FREE: Entry = Entry {
    slot: Slot(0),
    precedence: 0,
};

// Where a newcomer is inserted: at the first with lower precedence, if there is one.
fn inserted_newcomer(waiting: &[Entry], precedence: u16) -> Option<usize>
    ensures { result ≡ position (λ (entry : Entry). ltb entry.precedence precedence) waiting.now }
{
    waiting
        .iter()
        .position(|entry| entry.precedence < precedence)
}

// The newcomer at its place among the first n, and those behind it one place on.
fn inserted(entries: [Entry; PLACES], n: usize, newcomer: Entry) -> [Entry; PLACES]
    requires { n < entry_places }
    ensures { result ≡ insert newcomer (take n entries) ++ drop (n + 1) entries }
{
    let place = inserted_newcomer(&entries[..n], newcomer.precedence).unwrap_or(n);
    let mut out = entries;
    for i in (place..n).rev() {
        out[i + 1] = out[i];
    }
    out[place] = newcomer;
    out
}

// All places but the first, and a free one behind them. All thirty-two move, however many wait: a fixed number of places is a
// few wide moves and no loop.
fn moved_up(entries: [Entry; PLACES]) -> [Entry; PLACES]
    ensures { result ≡ moved_up entries }
{
    let mut out = [FREE; PLACES];
    for i in 0..LAST {
        out[i] = entries[i + 1];
    }
    out
}

impl Queue {
    pub fn fresh() -> Queue
        ensures { result ≡ fresh }
    {
        Queue {
            entries: [FREE; PLACES],
            count: 0,
        }
    }

    pub fn put(self, newcomer: Entry) -> Put
        ensures { result ≡ put_of self newcomer }
    {
        if ENTRIES <= self.count {
            return Put {
                queue: self,
                took: false,
            };
        }
        Put {
            queue: Queue {
                entries: inserted(self.entries, self.count as usize, newcomer),
                count: self.count + 1,
            },
            took: true,
        }
    }

    pub fn take(self) -> Taken
        ensures { result ≡ take_of self }
    {
        match self.count {
            1..=ENTRIES => Taken {
                queue: Queue {
                    entries: moved_up(self.entries),
                    count: self.count - 1,
                },
                head: Some(self.entries[0]),
            },
            _ => Taken {
                queue: self,
                head: None,
            },
        }
    }
}
