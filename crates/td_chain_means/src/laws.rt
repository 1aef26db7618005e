//! Laws of descriptors. They do nothing when they are called.

ghost use Rattle.td_chain_means.specs.Meant.{DescriptorsMean, DescriptorsMeanAt, IsWorkedDescriptor};

/// DESCRIPTOR accepts sixteen bytes exactly if what td_chain reads in them is admitted, and then delivers what td_chain reads.
pub fn descriptors_mean()
    ensures { DescriptorsMean }
{}

/// So it is of the sixteen bytes at any byte of a memory of words, with the numbers that td_chain takes from there.
pub fn descriptors_mean_at()
    ensures { DescriptorsMeanAt }
{}

/// Worked descriptors: one that is accepted, and one for each test that rejects.
pub fn worked_descriptor()
    ensures { IsWorkedDescriptor }
{}
