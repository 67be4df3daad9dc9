// A sender that stays on its chart is never refused for want of a rule: what is true of it, over the definitions of sender and promise.
#![tactic(auto)]
