// Agreement over frames is a theorem about the players' own definitions: its statement stands in specs/, its proof in proofs/. There is no code here.

#![tactic(auto)]
