// No code: what becomes of the places of processes, and of the machine, when one of them changes.
#![tactic(auto)]
