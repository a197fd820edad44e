// The demands as theorems, over the definitions of the other crates. No function lives here.
// specs/ states what is promised, one file for each demand; proofs/ proves it.
#![tactic(auto)]
