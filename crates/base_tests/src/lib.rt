//! Tests of the crates on which all stands: texts, JSON, schemas, cells, plans, resources and documents, where memory is ample.
//! They stand in one crate on top, so that none of those crates is proved twice.
#![tactic(auto)]

#[cfg(test)]
mod bindings;
#[cfg(test)]
mod cells;
#[cfg(test)]
mod documents;
#[cfg(test)]
mod drafts;
#[cfg(test)]
mod errors;
#[cfg(test)]
mod json_values;
#[cfg(test)]
mod plans;
#[cfg(test)]
mod resources;
#[cfg(test)]
mod schemas;
#[cfg(test)]
mod texts;
