// Demand 3: what a bound's answer admits. There is no function here: definitions and what is proved of calls and builds stand in specs/, the theorems on answers in proofs/.
#![tactic(auto)]
