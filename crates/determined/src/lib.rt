// No code: two well-formed states that hold the same machine hold the same number in every place that the machine uses.
#![tactic(auto)]
