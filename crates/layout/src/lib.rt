// Layouts of a state in lent bytes, as mathematics alone: this crate has definitions and laws in specs/, and no code.
#![tactic(auto)]
