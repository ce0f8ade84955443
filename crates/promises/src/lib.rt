// The user's demands as theorems over the contracts of the public functions: see specs/. There is no code here.
#![tactic(auto)]
