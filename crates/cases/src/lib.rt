// The bench cases are in specs/ and proofs/ alone.
#![tactic(auto)]
