// Lists of words cut in sections, and sections cut in records of one length.
//
// There is no code here. What is lent as words is read by a definition that cuts it, first in sections (`cuts`), then each section
// in pieces of one length (`pieces`), each of which is read as a record. Code above works on one piece at a time, through a part of
// the lent slice; the laws in proofs/ say, once and for any lengths, what a piece read so is, and what all sections and pieces are
// after one was written. The awkward case is a list that is too short for its sections: the definitions are total, and each law
// asks for just the length that it needs.
#![tactic(auto)]
