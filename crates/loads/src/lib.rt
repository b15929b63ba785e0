// What a text that is taken brings is said of the definitions of `image` and `machine`: specs/ and proofs/ alone.
#![tactic(auto)]
