// No code: the facts that the check decides are exactly well-formedness.
#![tactic(auto)]
