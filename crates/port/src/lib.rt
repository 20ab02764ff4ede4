// A step on a frame, said once for all players: its order stands in specs/, and what holds of every player's in proofs/. There is no code here.

#![tactic(auto)]
