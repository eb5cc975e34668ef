// Laws about lists, numbers and floats, for the crates above: specs/ only, no code.
#![tactic(auto)]
