// Document 01's starred cases as one table: what a row says, the rows, and one law over them all, in specs/ and proofs/.
#![tactic(auto)]
