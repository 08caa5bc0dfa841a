// The marking rules, and that they tell what the faults tell: definitions and laws alone, in specs/ and proofs/.
#![tactic(auto)]
