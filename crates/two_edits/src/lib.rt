// Two edits of one frame (02, R-2): definitions in `specs/`, theorems in `proofs/`; this crate has no code.
#![tactic(auto)]
