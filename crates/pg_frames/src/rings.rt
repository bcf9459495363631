// Steps on two rows of links, each without a branch. What a row says is a map of the nodes.
ghost use Rattle.std.specs.Prelude.{◌≡◌, ◌<◌, length, IfOk};
ghost use Rattle.pg_frames.specs.Links.{at_node, Says, AreMates, skipped, put_next, put_prev};

use crate::NoMemory;
use pg_rows::Row;
use std::alloc::Global;

// Links of so many nodes to themselves.
pub(crate) fn to_themselves(alloc: Global, nodes: u32) -> Result<Row<u32>, NoMemory>
    ensures long { IfOk result (λ row. length row ≡ nodes) }
    ensures each { IfOk result (λ row. Says nodes row (λ i. i)) }
{
    let mut row = Row::filled(alloc, 0, nodes as usize)?;
    for node in 0..nodes {
        row.set(node as usize, node);
    }
    Ok(row)
}

// Links a node to itself, and its neighbours to one another.
pub(crate) fn skip(next: &mut Row<u32>, prev: &mut Row<u32>, node: u32)
    requires mates { AreMates (length next.old) (at_node next.old) (at_node prev.old) }
    requires alike { length prev.old ≡ length next.old }
    requires inside { node < length next.old }
    ensures next { Says (length next.old) next.new (skipped (at_node next.old) node) }
    ensures prev { Says (length next.old) prev.new (skipped (at_node prev.old) node) }
    ensures next_long { length next.new ≡ length next.old }
    ensures prev_long { length prev.new ≡ length prev.old }
{
    let after = next.get(node as usize);
    let before = prev.get(node as usize);
    next.set(before as usize, after);
    prev.set(after as usize, before);
    next.set(node as usize, node);
    prev.set(node as usize, node);
}

// Puts a node that links to itself right behind a root.
pub(crate) fn put(next: &mut Row<u32>, prev: &mut Row<u32>, root: u32, node: u32)
    requires mates { AreMates (length next.old) (at_node next.old) (at_node prev.old) }
    requires alike { length prev.old ≡ length next.old }
    requires root_inside { root < length next.old }
    requires inside { node < length next.old }
    ensures next { Says (length next.old) next.new (put_next (at_node next.old) root node) }
    ensures prev { Says (length next.old) prev.new (put_prev (at_node prev.old) root node) }
    ensures next_long { length next.new ≡ length next.old }
    ensures prev_long { length prev.new ≡ length prev.old }
{
    let first = next.get(root as usize);
    next.set(root as usize, node);
    next.set(node as usize, first);
    prev.set(first as usize, node);
    prev.set(node as usize, root);
}
