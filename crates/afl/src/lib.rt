// The records that an application file locator (AFL) names.
#![tactic(auto)]

pub mod locator;
