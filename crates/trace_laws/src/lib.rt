// The lines of a trace are the plain sender's: what is true of them, over the definitions of trace_lines and promise.
#![tactic(auto)]
