use kb_name::{DeviceName, Moment};

/// Who merges, when, and by which rule: the device with its name, the seq of the last operation that it merges, the moment,
/// and the rule's number, from 1.
#[derive(Debug, Drop)]
pub struct Stamp {
    pub device: u16,
    pub name: DeviceName,
    pub last: u32,
    pub moment: Moment,
    pub rule: u8,
}
