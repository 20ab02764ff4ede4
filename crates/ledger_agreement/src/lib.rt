// That every reader has the same ledger is a theorem about delivered lists: its statements stand in specs/, their proofs in proofs/. There is no code here.

#![tactic(auto)]
