// The customers' demands, said of what C calls.
//
// There is no code here. The crate `history` speaks of one mission's calls, and the crate `contracts` of what each function from C may
// give back, whatever it is lent. Here the two meet. A trace is what programs in C do with one board and two missions: they lend words of
// any content to `hj_fresh_board` and twice to `hj_fresh_mission`, are told 0, and then call what they like, the operator on the board
// and on lists of routes, and each customer on its own words, each call on the words that the ones before left. Each call may give back
// anything that its contract allows. A customer's history is its own calls and the operator's, the other customer's left out. It is
// proved that the words then hold what the history leaves, and so that what is proved of histories is what C is told. There is such a
// trace for any calls that C can make, so nothing is proved of nothing.
//
// Each demand is a record with fields for every sentence, Demand1, Demand2 and Demand3 in specs/, each said for either customer by itself;
// Floods says that a flooded datagram goes on once, and what is remembered for that; Echoes says which echo requests are answered, what
// the reply is on the wire, and what it counts; Apart says that neither customer can tell what the other does; Batches says that a batch
// of datagrams is the single calls of its items, one after the other, so that a program with batches is a trace like any other. proofs/ has
// that they are kept, and a few relays that they shut out.
//
// The awkward case is the call that is lent no words, like reading a header: it stands in the history, and the words stay.
#![tactic(auto)]
