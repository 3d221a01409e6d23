// A message in pieces and the written page (document 02, E4): wherever a block's message is cut, finishing gives the parity that stands
// after that message in the stream of the page that `write_page` writes. There is no code here: specs/InPieces.antt says what is fed,
// and proofs/AfterMessage.antt joins the laws of crate pieces with those of page_theory.
#![tactic(auto)]
