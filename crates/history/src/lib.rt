// Histories: any calls, from a fresh board and a fresh mission on.
//
// There is no code here. The contracts say what one call does; this crate says what all of them do, settings changed between them
// included, and proves it of the very definitions that the contracts cite. A history is one mission's: a list of calls, each the
// operator's (an order or a view) or the mission's own (a setting, a hearing, a taking, a sweep or a look). A list of routes is lent with a
// call and is a part of it, and so is the second of a hearing or a sweep. What a history runs on, a `Seat`, is the board and that mission
// with what it remembers of floods; each of the mission's calls is page 01's call on the relay that the mission sees. The other mission is nowhere in these types: what is told and left here cannot depend on it.
//
// Of each call `outcome` says what it answers, which counters move, and which copies are granted, taken, dropped and handed out. What the
// rules give over a history, the counts, each port's ledger and what waits there, are sums and folds over outcomes. They follow the
// settings, the queues and the memory, and a seat has no counters: so the theorem that each counter is what the rules give compares two things that
// know nothing of each other.
//
// What waits on a port is a line of copies in the order of entering, each with the number of the call that placed it, since slots may
// repeat. How a queue keeps its entries is no part of it; that a take hands out the highest of the line, and at which take a copy goes
// out, is proved.
//
// The awkward case is the counter that comes round to 0 after 2^32 - 1: the tally of the rules is a number without end, and a counter
// is equal to it modulo 2^32.
#![tactic(auto)]
