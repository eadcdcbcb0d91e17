// Links from a node to its outputs, which would make an output quick to find: definitions and laws in specs/, no code.
#![tactic(auto)]
