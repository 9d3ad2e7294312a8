// Histories of a device: nothing here runs. The definitions are in specs/, and what holds of the device's calls in proofs/.
#![tactic(auto)]
