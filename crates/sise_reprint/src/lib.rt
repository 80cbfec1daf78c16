// Request 2.4: reprinting is final. A theorem, and no code: it stands in proofs/Final.antt by the definitions of the two calls that a program makes, and in
// proofs/FinalCalls.antt of what they return.
#![tactic(auto)]
