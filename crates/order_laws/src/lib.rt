// Theorems about the rows of every order that is read: see specs/. There is no code here.
#![tactic(auto)]
