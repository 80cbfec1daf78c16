// Demand 3: between two writings of one list of items only layout differs. A theorem, and no code: it stands in proofs/Demand3.antt, and of
// calls that a program makes one by one in proofs/Made.antt.
#![tactic(auto)]
