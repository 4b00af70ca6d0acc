// No code: what the memory of a state keeps between the operations on it, and what becomes of the machine when one part changes.
#![tactic(auto)]
