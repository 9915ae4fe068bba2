// Laws of the logs of an accepted table: what its rules, transitions and records are known to be.
#![tactic(auto)]
