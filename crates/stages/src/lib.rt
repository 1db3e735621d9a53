//! What stage does to an account's records (document 01, "The register", Stage): definitions in specs/, no function.

#![tactic(auto)]
