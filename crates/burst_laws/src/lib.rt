// A burst of acks beside the plain sender's reactions to the same acks: what is true of it, over the definitions of sender and promise.
#![tactic(auto)]
