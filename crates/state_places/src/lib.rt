// A mission's state in lent words: the places of groups and of paths.
//
// As in the crate `state_mission`: the caller lends the whole state, each function works on the words of one place, and each promise is over
// `decode` alone. An empty place is a record too, the fresh one where a call emptied it.
#![tactic(auto)]

ghost use Rattle.std.specs.Prelude.{◌≡◌, ◌<◌, length};
ghost use Rattle.sets.specs.Limits.{group_places, path_places};
ghost use Rattle.state.specs.Layout.{mission_words, decode, group_of, group_words, path_of, path_words};
ghost use Rattle.state.specs.Relay.{group_at, path_at, put_group, put_path};
ghost use Rattle.state.specs.Seen.{on_mission};

use address::{Address, PathAddress};
use records::{Group, PathPlace};
use state::MissionWords;

// Where the sections begin.
const GROUPS_AT: usize = 1;

const PATHS_AT: usize = 65;

const GROUP_WORDS: usize = 4;

const PATH_WORDS: usize = 4;

fn read_group(s: &[u32]) -> Group
    requires { length s.now ≡ 4 }
    ensures { result ≡ group_of s.now }
{
    Group {
        filled: s[0],
        address: Address(s[1]),
        send: s[2],
        subscribed: s[3],
    }
}

fn write_group(s: &mut [u32], x: Group)
    requires { length s.old ≡ 4 }
    ensures { s.new ≡ group_words x }
{
    s[0] = x.filled;
    s[1] = x.address.0;
    s[2] = x.send;
    s[3] = x.subscribed;
}

pub fn group_of(mission: &MissionWords, i: usize) -> Group
    requires { i < group_places }
    ensures { result ≡ group_at (decode mission.now).mission i }
{
    let from = GROUPS_AT + i * GROUP_WORDS;
    read_group(&mission[from..from + GROUP_WORDS])
}

pub fn put_group(mission: &mut MissionWords, i: usize, x: Group)
    requires { i < group_places }
    ensures { decode mission.new ≡ on_mission (λ m. put_group m i x) (decode mission.old) }
{
    let from = GROUPS_AT + i * GROUP_WORDS;
    write_group(&mut mission[from..from + GROUP_WORDS], x);
}

fn read_path(s: &[u32]) -> PathPlace
    requires { length s.now ≡ 4 }
    ensures { result ≡ path_of s.now }
{
    PathPlace {
        filled: s[0],
        path: PathAddress(s[1]),
        send: s[2],
        here: s[3],
    }
}

fn write_path(s: &mut [u32], x: PathPlace)
    requires { length s.old ≡ 4 }
    ensures { s.new ≡ path_words x }
{
    s[0] = x.filled;
    s[1] = x.path.0;
    s[2] = x.send;
    s[3] = x.here;
}

pub fn path_of(mission: &MissionWords, i: usize) -> PathPlace
    requires { i < path_places }
    ensures { result ≡ path_at (decode mission.now).mission i }
{
    let from = PATHS_AT + i * PATH_WORDS;
    read_path(&mission[from..from + PATH_WORDS])
}

pub fn put_path(mission: &mut MissionWords, i: usize, x: PathPlace)
    requires { i < path_places }
    ensures { decode mission.new ≡ on_mission (λ m. put_path m i x) (decode mission.old) }
{
    let from = PATHS_AT + i * PATH_WORDS;
    write_path(&mut mission[from..from + PATH_WORDS], x);
}
