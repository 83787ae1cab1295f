#![tactic(auto)]

// The laws of plans: which plans the executable test accepts. No function; definitions in specs/, theorems in proofs/.
