//! What instructions do, a module for each family.

pub(crate) mod ar_mem;
pub(crate) mod bit;
pub(crate) mod jump;
pub(crate) mod long;
pub(crate) mod long_mem;
pub(crate) mod mem;
pub(crate) mod plain;
pub(crate) mod port;
pub(crate) mod shifted;
pub(crate) mod short;
