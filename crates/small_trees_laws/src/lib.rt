// What is true of the trees that the small split lists grow: the theorems that stand on the definitions of small_trees and record.
#![tactic(auto)]
