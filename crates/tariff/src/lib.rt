#![tactic(auto)]
// What an object is charged: rows of prices, the charges of a month, the estimate for a damaged meter, the weather.
pub mod charge;
pub mod charges;
mod check;
pub mod estimate;
pub mod limits;
mod mixing;
pub mod order;
pub mod row;
pub mod rows;
pub mod rules;
#[cfg(test)]
mod tests;
pub mod weather;
#[cfg(test)]
mod weather_tests;
pub mod worked;
