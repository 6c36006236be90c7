#![tactic(auto)]

// Action bytes, written and read: definitions and theorems only, in specs/ and proofs/.
