// The order of refusals in whole calls as one table, and one law over its rows, in specs/ and proofs/.
#![tactic(auto)]
