// Cases of the paper and of its change requests: what each call answers and leaves stands in specs/, and proofs/ computes it. There is no code here.

#![tactic(auto)]
