#![tactic(auto)]

// What is promised of every call: the demands as theorems. A reader starts at proofs/Demands.antt; the words it uses are in specs/.
