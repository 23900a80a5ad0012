// Promises that leave no room: this crate has no code, only theorems over what the others promise.
#![tactic(auto)]
