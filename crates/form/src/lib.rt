// The form of a card: definitions of what the check answers, and laws, in specs/ and proofs/.
#![tactic(auto)]
