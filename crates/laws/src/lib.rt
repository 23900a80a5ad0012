// Laws of the controller as a whole: this crate has no code, only theorems over what the others define.
#![tactic(auto)]
