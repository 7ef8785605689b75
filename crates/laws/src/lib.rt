// The theorems about the map: specs/ has the definitions that they speak of, proofs/ the theorems. There is no code here.
#![tactic(auto)]
