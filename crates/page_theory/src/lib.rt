// Pages: how they are written, what may become of them, and what they give when they are looked at and taken (documents 01 and
// 02). There is no code here: the crate holds definitions (specs/) and the owner's three demands as theorems of the definitions
// (proofs/). The code stands in crates above and promises that each of its calls equals the definition of that call.
//
// The definitions, from bottom to top:
//   1. Page: the message of a block, the block as it is written, the written page with its tail; the word in a block of a page.
//   2. Reading: what becomes of each block, and of the page: all messages, or the lowest ruined block; and what is reported of each block.
//   3. Claim: which claimed locations are right.
//   4. Calls: what the five page calls answer and leave, for everything that may be lent to them.
//   5. Damage: accepted layouts, payloads, and the pages that damage may make of a page that was written.
//   6. Demands: what the first two demands say of a call.
//
// All of it is said of an accepted layout with its plan, or of the answer to a layout, whatever names the layout.
//
// The theorems:
//   Demand1, Demand2, Demand3    the owner's demands, sentence by sentence
//   OneBlock, Claims             what judging one block depends on, and which claims are accepted
//   Erased                       a page of ones is never refused
//   Joint                        looking and then taking gives what document 01's joint call gave
//   ReplyRules                   each call replies as its list of rules says
//   Tail, Reordered              what no answer depends on
//   Cases                        document 01's cases A to L, in one table
//   Blocks, Writing, Reading, Outcomes, Damage, Calls, Accepted    the laws behind them, and what a writer and a reader have to show
#![tactic(auto)]
