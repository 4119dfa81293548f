// The settings of the heap: for multiples of how many bytes it asks, and how often it makes a release pass.
ghost use Rattle.kernel_heap.specs.LaidOut.{IsNumberedSound};
ghost use Rattle.kernel_heap.specs.Served.{HasServedCall};

use crate::numbered_heap::NumberedHeap;
use machine_model::{Answer, Call, Reply};

impl NumberedHeap {
    /// Sets how many large chunks are freed between two release passes. It takes no memory.
    pub(crate) fn set_rate(&mut self, rate: u64) -> Answer
        requires sound { IsNumberedSound self.old }
        ensures sound { IsNumberedSound self.new }
        ensures ok { HasServedCall self.old (Call.SetRate rate) result self.new }
    {
        self.heap.set_release_rate(rate);
        Answer {
            reply: Reply::Done,
            regions: None,
            large: None,
        }
    }

    /// Sets the granularity, where it is a power of two of at least 16. It takes no memory.
    pub(crate) fn set_granularity(&mut self, granularity: u64) -> Answer
        requires sound { IsNumberedSound self.old }
        ensures sound { IsNumberedSound self.new }
        ensures ok { HasServedCall self.old (Call.SetGranularity granularity) result self.new }
    {
        Answer {
            reply: Reply::Accepted(self.heap.set_granularity(granularity)),
            regions: None,
            large: None,
        }
    }
}
