use crate::service::Service;
use crate::slave::SlaveSpec;
use ec_fields::Rows;
use eoe::Packet;

/// What a scenario says: the segment, the services addressed to its slaves, the packets of the host and the frames that are lost.
#[derive(Drop)]
pub struct Scenario {
    /// How many lost frames in a row a slave outlives, 0 to 15.
    pub retry: u32,
    /// How often a slave that was given up is taken up again, 0 to 15.
    pub recover: u32,
    /// The most frames that a run sends, 1 to 100,000,000; none where the frame bound holds.
    pub budget: Option<u32>,
    /// The frames that are lost, their numbers rising, each with how many slaves it meets before.
    pub lose: Rows<(u32, u32)>,
    /// The slaves in ring order, 1 to 16.
    pub slaves: Rows<SlaveSpec>,
    /// The services in order, each with the number of its slave; at most 4,096.
    pub services: Rows<(u32, Service)>,
    /// The packets of the host, at most 4,096.
    pub host: Rows<Packet>,
    /// After how many frames each slave makes a processor step, 1 to 16.
    pub paces: Rows<u32>,
}
