//! Tests of graphs of signals: their values, the builder, rates and histories; and of fv_propagate's public call: graphs give what
//! their diagrams answer.
#![tactic(auto)]

#[cfg(test)]
mod builder;
#[cfg(test)]
mod diagram_graphs;
#[cfg(test)]
mod histories;
#[cfg(test)]
mod values;
