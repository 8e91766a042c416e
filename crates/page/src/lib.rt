// Page 01's verdict as a table, and page 02's echo replies.
//
// There is no code here. The contracts say what receiving answers by definitions that follow the code: sets of ports are numbers, gathered in
// one walk over the ports, and the onward half goes in stages. This crate says the same a second time, straight from page 01's "One received
// datagram, step by step": lists of conditions in the page's order, of which the first that holds decides, and sets of ports as tests of a
// port's number. A reader with the page in hand can tick them line by line. Then it proves that receiving answers exactly that, for any port,
// second, octets and room, and so when each number is given; that it remembers of a flooded datagram what page 02, W-207, says; and that each port
// that takes a copy gets the header that W-214 gives it. Echo replies are said again likewise (W-203): the conditions under which a request is answered, each by
// itself, what the reply is made of, and the route line that it takes.
//
// The awkward case is the route line. The page counts a mask's ones, and the code compares masks as numbers. The two are the same where masks are
// ones and then zeros, as 22 leaves them; so the tables take the comparison as an argument. With masks as numbers the theorem holds of any relay,
// and with their ones of a relay with such masks.
#![tactic(auto)]
