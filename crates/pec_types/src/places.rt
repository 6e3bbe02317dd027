/// Where bytes stand on a disk: `length` of them from place `at` on, counted in bytes from 0. This project's profile.
#[derive(Clone, Copy, Debug, PartialEq, Eq)]
pub struct Place {
    pub at: u64,
    pub length: u32,
}
