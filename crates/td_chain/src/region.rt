//! Regions of a guest's memory.

ghost use Rattle.std.specs.Prelude.{◌≡◌, ◌+◌, ◌-◌, ◌<◌, ◌^◌, IfSome};
ghost use Rattle.td_chain.specs.Places.{AreWithin, InRegions, lies_in, translated as translation};

/// A region of a guest's memory: its addresses, from `from` on and below `until`, and the byte of the memory at which it begins. One that
/// ends where it begins, or before, has no bytes.
#[repr(C)]
#[derive(Clone, Copy, PartialEq, Eq, Debug)]
pub struct Region {
    pub from: u64,
    pub until: u64,
    pub place: u64,
}

// Whether so many bytes from an address on lie in a region.
fn lies(r: &Region, address: u64, size: u32) -> bool
    ensures { result ≡ lies_in r.now address size }
{
    if address < r.from {
        return false;
    }
    if address > r.until {
        return false;
    }
    r.until - address >= size as u64
}

/// The byte of the memory at which so many bytes from an address on begin, by the first region that they all lie in.
pub(crate) fn translated(regions: &[Region], address: u64, size: u32) -> Option<u64>
    requires { AreWithin (2 ^ 64 - 1) regions.now }
    ensures value { result ≡ translation regions.now address size }
    ensures within { IfSome result (λ place. InRegions regions.now place size) }
{
    for r in regions {
        if lies(r, address, size) {
            return Some(r.place + (address - r.from));
        }
    }
    None
}
