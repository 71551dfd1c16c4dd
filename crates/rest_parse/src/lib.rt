//! What a request means: the endpoint that its path names, the parameters of its query, and the
//! call that it makes; or its first fault.
#![tactic(auto)]

mod calls;
mod faulty;
mod lists;
mod parameters;
mod query;
mod review_pairs;
mod reviews;
mod routes;
mod sites;

pub use calls::{Call, HttpFault, ParameterName, request_of};
pub use reviews::{ReviewCall, reviewed_of};
pub use routes::{Endpoint, Routes};
pub use sites::{SiteCall, read_site, site_call};
