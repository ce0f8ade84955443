// How the machine's calls follow document 01's machine: the statements are in specs/, the proofs in proofs/. There is no code here.
#![tactic(auto)]
