// A card with no inverted read is as it was before document 02's 'Inverted reads': definitions and laws alone, in specs/ and proofs/.
#![tactic(auto)]
