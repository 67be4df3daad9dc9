// What is true of every grown tree: the theorems that stand on the definitions of rule_tree.
#![tactic(auto)]
