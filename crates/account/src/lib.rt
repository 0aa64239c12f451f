// No code: specs/ says what demand 3 promises of stretches of calls on the model, and proofs/ proves it.
#![tactic(auto)]
