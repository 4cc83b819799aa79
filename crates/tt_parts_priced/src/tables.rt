//! What the ways to the states of a program pay at least, at some prices.

use crate::layer::Layer;
use std::alloc::{AllocError, Global};

/// What each set pays in each slot, and the least that is paid on the way to each state of each day and of the week.
#[derive(Debug, Drop)]
pub struct Tables {
    pub sets: Vec<Vec<i64>>,
    pub days: Vec<Vec<Vec<i64>>>,
    pub week: Vec<Vec<i64>>,
}

/// Returns a table for each layer, and one of a single state before the first.
pub fn tables_of(alloc: Global, layers: &[Layer]) -> Result<Vec<Vec<i64>>, AllocError> {
    let mut tables = Vec::new(alloc);
    tables.push(vec![in alloc; 0i64; 1]?)?;
    for layer in layers {
        tables.push(vec![in alloc; 0i64; layer.states()]?)?;
    }
    Ok(tables)
}

/// Returns a table; the empty one if there is none.
pub fn table(tables: &[Vec<i64>], index: usize) -> &[i64] {
    match tables.get(index) {
        Some(table) => table,
        None => &[],
    }
}

/// Finds the least that is paid on the way to each state of each layer. What is chosen by the edges of each layer has these costs.
pub fn run_layers(layers: &[Layer], costs: &[Vec<i64>], scale: i64, tables: &mut [Vec<i64>]) {
    for (index, layer) in layers.iter().enumerate() {
        let Some((done, rest)) = tables.split_at_mut_checked(index.saturating_add(1)) else {
            return;
        };
        if let Some(after) = rest.first_mut() {
            layer.run(table(done, index), table(costs, index), scale, after);
        }
    }
}
