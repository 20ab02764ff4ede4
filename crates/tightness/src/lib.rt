// Tightness is a theorem about the contracts of all public calls, and that the exported ones do what agreement speaks of is another: their statements stand in
// specs/, their proofs in proofs/. There is no code here.

#![tactic(auto)]
