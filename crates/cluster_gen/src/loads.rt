// What a partition puts on its brokers.

// The leader's loads. Its followers carry no network out, and half of the processor.
#[derive(Drop)]
pub struct Loads {
    pub network_in: u32,
    pub network_out: u32,
    pub processor: u32,
    pub disk: u32,
}
