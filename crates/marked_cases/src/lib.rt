// The marked cases: one table and one statement, specs/Marked.antt. There is no code here.
#![tactic(auto)]
