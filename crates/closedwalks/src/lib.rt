#![tactic(auto)]

// Laws of closed walks: which plans they tread, and which walk of a plan comes first. Definitions are in specs/, theorems in proofs/.
