// The replies of exporting and importing fragments (document 02, E9), as one list of rules in the order in which they are looked at.
// There is no code here: specs/ReplyRules.antt has the list, and proofs/ReplyRules.antt shows that the calls of crate `fragments` reply
// as it says, and how they end.
#![tactic(auto)]
