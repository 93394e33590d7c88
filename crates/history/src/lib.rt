// The history theorem of a work area and what it says of one slot, over the contracts of slots' calls, in proofs/. No function.
#![tactic(auto)]
