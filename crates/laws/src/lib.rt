// Laws of document 01's definitions, each said once and cited by the crates above. There is no function here: the laws stand in specs/.
#![tactic(auto)]
