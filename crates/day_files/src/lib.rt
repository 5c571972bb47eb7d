// The search of a day file (02, R-4): what is proved of its promise, and cases, all in `specs/`; this crate has no code.
#![tactic(auto)]
