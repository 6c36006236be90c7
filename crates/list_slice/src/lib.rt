#![tactic(auto)]

// The layout of the list slice: definitions and theorems only, in specs/ and proofs/.
