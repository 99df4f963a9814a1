//! Journals on which what calls and requests are answered is computed.
#![tactic(auto)]
