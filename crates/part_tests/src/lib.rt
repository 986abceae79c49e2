//! Tests of public calls: the decode table, folders and sinks, commands on the rows of a chip,
//! objects in its banks, microprograms, their files and their runs on the rows of a bank, waves,
//! bodies of row commands, and the search for fewer commands.
#![tactic(auto)]

#[cfg(test)]
mod body_tests;
#[cfg(test)]
mod chip_tests;
#[cfg(test)]
mod decode_tests;
#[cfg(test)]
mod edge_tests;
#[cfg(test)]
mod graph_tests;
#[cfg(test)]
mod kernel_tests;
#[cfg(test)]
mod object_tests;
#[cfg(test)]
mod program_tests;
#[cfg(test)]
mod rows;
#[cfg(test)]
mod shorten_tests;
#[cfg(test)]
mod table_tests;
#[cfg(test)]
mod wave_tests;
#[cfg(test)]
mod width_tests;
