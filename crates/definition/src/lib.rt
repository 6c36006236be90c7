#![tactic(auto)]

// What the two calls give is defined in specs/, demand 3 and the conditions of the refusals are proved in proofs/.
