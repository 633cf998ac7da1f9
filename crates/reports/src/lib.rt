// What each program prints for an order. All print a refused order alike. There is no code here: only definitions (specs/Reports.antt) and
// laws (proofs/ReportsLaws.antt).
#![tactic(auto)]
