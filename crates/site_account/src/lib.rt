// No code: specs/ says what demand 3 promises of stretches of store calls, over the bytes that leave, and proofs/ proves it.
#![tactic(auto)]
