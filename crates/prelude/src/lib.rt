// There is no code here. proofs/ has the names of the logic that proofs use, and laws of truth values and of rules that are computed.
// specs/ has a definition that crates share.
#![tactic(auto)]
