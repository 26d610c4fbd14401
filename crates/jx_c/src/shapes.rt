// Types that several calls take and answer.
pub(crate) mod buffers;
pub(crate) mod handle;
pub(crate) mod places;
pub(crate) mod settings;
pub(crate) mod status;
pub(crate) mod unboxed;
pub(crate) mod verdict;
pub(crate) mod version;
