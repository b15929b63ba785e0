// Demand 3 has no code of its own: it is said of what the machine's code is proved to do. See specs/Demand3.antt.
#![tactic(auto)]
