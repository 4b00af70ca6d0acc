// Laws of the small functions on lists that the definitions share, as mathematics alone: this crate has no code.
#![tactic(auto)]
