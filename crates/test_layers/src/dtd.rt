//! Tests of DTDs: parameter entities put in place, what a text means, the words that its models
//! allow, its parts laid out flat, and its productive names.

mod expectations;
mod flat;
mod models;
mod params;
mod productive;
mod texts;
