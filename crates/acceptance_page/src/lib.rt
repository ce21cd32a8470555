//! Tests of addresses, tables, regions, pages, stores and files, by their public calls alone. A
//! module is named after the crate that it tests; `page` has three more beside it. The values come
//! from worked rows and hand arithmetic, never from the program's own output.
#![tactic(auto)]

#[cfg(test)]
mod bigmin;
#[cfg(test)]
mod calls;
#[cfg(test)]
mod file;
#[cfg(test)]
mod file_fake;
#[cfg(test)]
mod page;
#[cfg(test)]
mod page_masks;
#[cfg(test)]
mod page_regions;
#[cfg(test)]
mod region;
#[cfg(test)]
mod samples;
#[cfg(test)]
mod store;
#[cfg(test)]
mod surface;
#[cfg(test)]
mod table;
#[cfg(test)]
mod zaddr;
