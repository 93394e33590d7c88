// Theorems about the rules, in proofs/: what is removed and what is kept, when two segments meet, how slots go on. No function.
#![tactic(auto)]
