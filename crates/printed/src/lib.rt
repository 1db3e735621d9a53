//! What the printing program prints for an interchange, from its bytes to the text. The definition and the paper's example stand in specs/; there is no function.

#![tactic(auto)]
