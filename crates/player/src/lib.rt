// A step on a packet, said once for all players: its order stands in specs/, and what holds of every player's step in proofs/. There is no code here.

#![tactic(auto)]
