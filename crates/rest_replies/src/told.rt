// What is told to a client.
use anomaly_detector::Decision;
use core_terms::{PumpEnd, Reply, StepFault};
use rest_parse::HttpFault;
use rest_stream::Stop;
use review_board::BoardReply;

/// What is told to a client.
#[derive(Drop)]
pub enum Told {
    /// The core's answer to the event that the request is.
    Core(Reply),
    /// Why the event wasn't taken.
    Step(StepFault),
    /// The end of a pump.
    Pump(PumpEnd),
    /// What is to be done about lost brokers and broken goals.
    Decided(Decision),
    /// Why the request means nothing.
    Http(HttpFault),
    /// Why there is no further request.
    Stopped(Stop),
    /// The board's answer to the event that the request is.
    Board(BoardReply),
    /// That the service ends.
    Ending,
    /// The service's page.
    Page,
}
