// Sequences of calls on a store (document 02, E11). There is no code here: the crate holds the definition of a sequence on the plain list
// (specs/Runs.antt), what its states have (specs/Reached.antt), and the laws of any sequence from an empty store (proofs/).
//
//   Sequences    any sequence of calls of the code answers as the plain list does; a refused call changes nothing
//   Reached      what every state of a sequence has: distinct numbers below the next one, accepted layouts, known versions in use
//   Numbers      no number is given twice; a version names one layout for as long as there is one
//   OnFlash      what is written is loaded again, and what is loaded is written again
//   Demands      the owner's demands at calls that name a version
#![tactic(auto)]
