//! The services that are found are the groups 2 of an interchange's SKDUPD messages. The statement and the theorem stand in specs/; there is no function.

#![tactic(auto)]
