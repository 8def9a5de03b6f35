//! The kind of a device.

/// The kind of a planned device.
#[derive(Clone, Copy, Debug, PartialEq, Eq)]
pub enum DeviceKind {
    Group,
    Station,
}
