// Cells of the tables; past their end there is "none".
ghost use Rattle.std.specs.Prelude.{◌<◌, ◌≤◌};

fn wide(cell: u32) -> usize
    ensures { result ≤ 4294967295 }
{
    cell as usize
}

pub fn tree_cell(trees: &[u32], tree: usize, column: usize) -> usize
    requires { column < 2 }
    ensures { result ≤ 4294967295 }
{
    if tree < trees.len() / tables::TREE_STRIDE {
        return wide(trees[tree * tables::TREE_STRIDE + column]);
    }
    wide(tables::NONE)
}

pub fn node_cell(nodes: &[u32], node: usize, column: usize) -> usize
    requires { column < 6 }
    ensures { result ≤ 4294967295 }
{
    if node < nodes.len() / tables::NODE_STRIDE {
        return wide(nodes[node * tables::NODE_STRIDE + column]);
    }
    wide(tables::NONE)
}

// The greatest depth of the nodes from one to another.
pub fn greatest_depth(nodes: &[u32], root: usize, end: usize) -> usize {
    (root..end)
        .map(|node| node_cell(nodes, node, 5))
        .max()
        .unwrap_or(0)
}

pub fn property_cell(properties: &[u32], property: usize, column: usize) -> usize
    requires { column < 4 }
    ensures { result ≤ 4294967295 }
{
    if property < properties.len() / tables::PROPERTY_STRIDE {
        return wide(properties[property * tables::PROPERTY_STRIDE + column]);
    }
    wide(tables::NONE)
}
