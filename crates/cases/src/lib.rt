// No code: document 01's cases, as one statement about what the public functions give. specs/Cases.antt has it.
#![tactic(auto)]
