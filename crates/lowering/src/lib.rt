#![tactic(auto)]

// The definition of lowering is in specs/, its theorems in proofs/.
