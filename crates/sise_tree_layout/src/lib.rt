// What holds of trees as texts, over sise_layout's theorem: the same tree in every buffer that holds it (proofs/TreeRooms.antt), its size before its text
// (request 2.2; proofs/SizeLaws.antt, SizeLengths.antt), and its text read again (proofs/ReadAgain.antt). Theorems, and no code.
#![tactic(auto)]
