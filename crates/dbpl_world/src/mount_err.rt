// Why a store could not be mounted.

#[derive(Clone, Copy, Debug, PartialEq, Eq)]
pub enum MountErr {
    Failed,
    Memory,
}
