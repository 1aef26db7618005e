//! A queue's descriptor table.

/// A split virtqueue as a device sees it: the byte of the memory at which its descriptor table begins, how many entries that has (2.7,
/// Queue Size), and whether a descriptor may refer to an indirect table (VIRTIO_F_INDIRECT_DESC was negotiated).
#[repr(C)]
#[derive(Clone, Copy, PartialEq, Eq, Debug)]
pub struct Queue {
    pub table: u64,
    pub size: u16,
    pub indirect: bool,
}
