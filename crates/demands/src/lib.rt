// The auditor's first room: the three demands, each over runs of the code. Definitions and theorems only.
#![tactic(auto)]
