// The process machine as mathematics alone: this crate has definitions and laws in specs/, and no code.
#![tactic(auto)]
