// What the verdict asks of a header's own elements.
//
// Three elements matter to the verdict besides the addresses: the TP-ID (is it assigned in table 3-2 of 003?), the hop count (is it used
// up?) and the precedence (in which turn does the datagram go out?). Each is asked as a number. The awkward case is absence: without a
// hop count the hops are never used up, and without basic QOS the precedence counts as 0.
ghost use Rattle.std.specs.Prelude.{◌≡◌};
ghost use Rattle.meaning.specs.Asked.{assigned_of, spent_of, precedence_asked};

use header::Qos;

// 1 where the TP-ID is assigned. 0 is Reserved.
pub fn assigned_of(tpid: u8) -> u32
    ensures { result ≡ assigned_of tpid }
{
    match tpid {
        1 => 1,
        4 => 1,
        5 => 1,
        6 => 1,
        8 => 1,
        10 => 1,
        11 => 1,
        _ => 0,
    }
}

// 1 where a hop count is present and 0 or 1: the datagram cannot go on.
pub fn spent_of(hops: Option<u8>) -> u32
    ensures { result ≡ spent_of hops }
{
    match hops {
        Some(count) if count < 2 => 1,
        _ => 0,
    }
}

// The precedence, 0 where there is none.
pub fn precedence_of(qos: Option<Qos>) -> u16
    ensures { result ≡ precedence_asked qos }
{
    match qos {
        None => 0,
        Some(q) => q.precedence as u16,
    }
}
