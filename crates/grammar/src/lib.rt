// What a structure block says, as theorems on the specifications of fdt: no code of its own.
#![tactic(auto)]
