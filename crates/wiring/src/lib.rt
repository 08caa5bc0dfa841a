// Two cards wired together: what the words of the joined card are, and that it is the two cards. Definitions and laws alone, in specs/ and proofs/.
#![tactic(auto)]
