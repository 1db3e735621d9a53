//! What a register holds, how it is written, and what each call does (document 01, "The register"): definitions in specs/, no function.

#![tactic(auto)]
