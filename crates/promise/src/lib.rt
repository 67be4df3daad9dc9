// Document 01's plain trainer and plain sender, and what is claimed of every list of calls.
#![tactic(auto)]
