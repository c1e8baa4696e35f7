//! What is read from the nodes of a walk.
ghost use Rattle.std.specs.Prelude.{◌≡◌, [], ◌∷◌, ◌++◌, IfOk};
ghost use Rattle.sn_tree.specs.Reading.{synths_by, views_by};

use crate::cursor::Row;
use crate::item::Item;
use crate::node::{NodeKind, NodeView};
use crate::rows::Rows;
use crate::views::see;
use sn_forest::Forest;
use sn_ports::NoMemory;
use std::alloc::Global;

/// Adds the id of a synth.
fn add_synth(found: &mut Vec<i32>, row: Row<'_>) -> Result<(), NoMemory>
    ensures { IfOk result (λ _. found.new.items ≡ found.old.items ++ synths_by ((row.entry.key, row.entry.item.now) ∷ [])) }
{
    match row.item.kind {
        NodeKind::Synth => found.push(row.item.id)?,
        NodeKind::Group | NodeKind::Parallel => {}
    }
    Ok(())
}

/// The ids of the synths among nodes.
pub fn synths_in(alloc: Global, rows: Rows<'_>) -> Result<Vec<i32>, NoMemory>
    ensures { IfOk result (λ found. found.items ≡ synths_by rows.entry) }
{
    let mut found = Vec::new(alloc);
    for row in rows {
        add_synth(&mut found, row)?;
    }
    Ok(found)
}

/// Adds how a node is seen.
fn add_view(
    views: &mut Vec<(i32, NodeView)>,
    forest: &Forest<Item>,
    row: Row<'_>,
) -> Result<(), NoMemory>
    ensures { IfOk result (λ _. views.new.items ≡ views.old.items ++ views_by forest.now ((row.entry.key, row.entry.item.now) ∷ [])) }
{
    match see(forest, row.key) {
        Some(view) => views.push((row.item.id, view))?,
        None => {}
    }
    Ok(())
}

/// How nodes are seen, by their ids.
pub fn views_in(
    alloc: Global,
    forest: &Forest<Item>,
    rows: Rows<'_>,
) -> Result<Vec<(i32, NodeView)>, NoMemory>
    ensures { IfOk result (λ views. views.items ≡ views_by forest.now rows.entry) }
{
    let mut views = Vec::new(alloc);
    for row in rows {
        add_view(&mut views, forest, row)?;
    }
    Ok(views)
}
