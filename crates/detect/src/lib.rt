// What a vector and a list of vectors catch: definitions and laws alone, in specs/ and proofs/.
#![tactic(auto)]
