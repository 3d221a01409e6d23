// The replies of the calls about a layout (document 01, "Replies"), as lists of rules in the order in which they are looked at. There is no code
// here: specs/ReplyRules.antt has the lists, proofs/ReplyRules.antt shows that the answers of crate layout reply as they say, and
// proofs/Cases.antt and proofs/Editions.antt have document 01's and 02's cases.
#![tactic(auto)]
