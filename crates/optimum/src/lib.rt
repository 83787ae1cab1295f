#![tactic(auto)]

// Theory only: what the router's table holds, and why the plan read out of it is the best plan (specs/ and proofs/).
