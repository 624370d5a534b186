//! Worked examples over objects in memory: of a disk, its titles and images, and of images of version 1 and what is made of them
//! (`catalog`); of a system (`rows`).
#![tactic(auto)]

#[cfg(test)]
mod catalog;
#[cfg(test)]
mod rows;
