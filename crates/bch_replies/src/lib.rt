// The replies of locating from a remainder (document 01, "Replies" and "Remainder"), as one list of rules in the order in which they are
// looked at. There is no code here: specs/ReplyRules.antt has the list, and proofs/ReplyRules.antt shows that the call of crate bch
// replies as it says, and how that call ends.
#![tactic(auto)]
