// Laws of the machine's definitions, for every proof to cite. No code.
#![tactic(auto)]
