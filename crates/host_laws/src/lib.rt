// Theorems about what a host in C gets: see specs/. There is no code here.
#![tactic(auto)]
