// What a list of steps does: docs/MACHINE.md, "Places" and "Waiting" (specifications only).
#![tactic(auto)]
