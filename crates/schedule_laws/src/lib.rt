// Theorems over the definitions of `schedule`: specs/ has the statements, proofs/ the proofs. There is no code here.
#![tactic(auto)]
