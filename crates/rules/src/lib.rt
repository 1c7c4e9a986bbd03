// The rules hold no code: the definitions are in specs/, and what is proved of them in proofs/.
#![tactic(auto)]
