// Every answer by its refusal's number and its values, the order of the refusals of each public call, what a taken call gives, and that a refused call changes nothing.
#![tactic(auto)]
