// What the contracts of the 39 calls from C say, as one table.
//
// There is no code here. A contract stands above its function, in eleven files of ten crates, and speaks of entries and exits of
// borrowed slices. Who reads what C may rely on wants one list: of each call what it answers, and what it leaves of the board, of a
// mission's words, of a list of routes, of the output and of a header's or a message's numbers, or a batch's answers. That list is
// `promised`, in specs/Promised.antt. It copies the clauses; so it is proved that it says what they say, and no more. What they say is
// taken from the contracts themselves, by what the prover gives a caller (specs/Stated.antt), and no clause is written down a
// second time for it. Of the seven functions that are lent a list the one clause has a name in their own crate, and it is proved by
// computing that the contract is this clause and asks nothing (specs/Named.antt, proofs/Given.antt).
//
// Four things follow for each call: a caller shows nothing first; there is a result that the contract allows; there is one alone; and
// whatever is proved of the rows is proved of what the code gives back.
//
// The awkward case is the slot: the words have 16 bits for one. A slot that C cannot pass would ask for words that there are not.
#![tactic(auto)]
