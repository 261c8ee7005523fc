//! The limits of a registry. A request that would exceed one of them is refused.

/// The most organisations of a registry.
pub const MOST_ORGS: u32 = 65_536;

/// The most petitions of a registry, over all its vendors and including closed ones.
pub const MOST_PETITIONS: u32 = 1_000_000;

/// The most open petitions of one organisation at a time, over all vendors.
pub const MOST_OPEN: u32 = 16;

/// The most vendors of a registry, including the founding vendor.
pub const MOST_VENDORS: usize = 256;

/// The most licences that a registry allows, including those of its founding.
pub const MOST_LICENCES: usize = 1024;

/// The most curators of a registry.
pub const MOST_CURATORS: usize = 64;

/// The most items of one import.
pub const MOST_ITEMS: usize = 8192;
