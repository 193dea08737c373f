//! The grammar of UnicodeSet patterns (UTS 35, Unicode Sets): definitions and laws, and no code but the laws' empty functions.
#![tactic(auto)]

pub mod laws;
