// Laws of the kit's lists, tests and numbers that name nothing of the project: proofs/.
#![tactic(auto)]
