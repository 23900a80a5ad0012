// Two hosts and their panels: this crate has no code, only the theorem over what the others define.
#![tactic(auto)]
