// What the definition guarantees, as mathematics alone: this crate has laws in specs/, and no code.
#![tactic(auto)]
